// The statement on old and new layouts and the relations of its proof are in specs/, the theorem `old_and_new` in proofs/OldAndNew.antt; there
// is no code.
#![tactic(auto)]
