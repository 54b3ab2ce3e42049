// The head of a sheet in the writer: passport and descriptor are checked by what the writer is given for them (check), and written (emit).
//
// Relied on: the definitions of `layout`, the laws of `laws`, the leaf code of `fields`. Promised: the rules are those of the definition, in
// its order, and the 452 bytes are those of the layout.
#![tactic(auto)]

pub mod check;
pub mod emit;
pub mod texts;
