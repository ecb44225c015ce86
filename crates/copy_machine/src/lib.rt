// Laws of the copy-rule machine's steps for the copying engine: there is no code here.
#![tactic(auto)]
