// Theorems about the copy-rule machine alone: see specs/.
#![tactic(auto)]
