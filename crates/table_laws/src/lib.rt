// Laws of the membership table and of its list of groups: see specs/.
#![tactic(auto)]
