// The laws that tie the reading of a list, and its numbers, to what the definitions ask of it, with no code.
#![tactic(auto)]
