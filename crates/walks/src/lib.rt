// Laws for proofs by hand of functions over a lent slice of structs, with no code.

#![tactic(auto)]
