// Theorems on the definitions of blocks; it has no code.
#![tactic(auto)]
