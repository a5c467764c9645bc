// What a walk over accepted bytes relies on; it has no code.
#![tactic(auto)]
