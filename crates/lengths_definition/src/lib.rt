// The definition is in specs/; it has no code.
#![tactic(auto)]
