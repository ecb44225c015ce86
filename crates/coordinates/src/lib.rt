// Theorems about where the frame machine finds a name: see specs/.
#![tactic(auto)]
