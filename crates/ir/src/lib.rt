// The definition is in specs/; it has no code. The code of ir.rs is crate ir_nodes.
#![tactic(auto)]
