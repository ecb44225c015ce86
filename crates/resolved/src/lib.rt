// Definitions and theorems alone: see specs.
#![tactic(auto)]
