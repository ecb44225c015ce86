// The laws of sums over the places of a list, with no code.
#![tactic(auto)]
