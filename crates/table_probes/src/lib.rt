// The laws of slots that are searched one after the other from a slot of the key's own on, with no code.
#![tactic(auto)]
