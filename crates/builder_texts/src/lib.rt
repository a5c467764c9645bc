// What the builder writes from valid texts is valid, and 18 is not given because of a text. `Texts` and `Unheld` are in specs/, the theorem `texts_written` in
// proofs/Written.antt, `layout_not_3` and `not_held` in proofs/Reread.antt; there is no code.
#![tactic(auto)]
