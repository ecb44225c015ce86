// Definitions and theorems only (specs/): the search along the callers' chain.
#![tactic(auto)]
