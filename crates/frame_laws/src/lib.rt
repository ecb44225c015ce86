// Theorems about the frame machine alone: see specs/.
#![tactic(auto)]
