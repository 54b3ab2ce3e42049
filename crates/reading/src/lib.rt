// The reader: what a program calls to read a sheet at a setting.
//
// Relied on: the definitions of `layout`, the two passes (`reading_check` says whether a sheet is accepted and how much it unfolds to,
// `reading_fill` unfolds an accepted one), what the head answers (`reading_head`), and the settings of `meanings`.
//
// Promised: each public function takes every value of its parameters (none has a `requires`), and its contract is an equation with a
// definition of `layout` that settles every number and byte handed back, refusals too (proofs/Once.antt). The modules of `meanings`, which
// says what their contracts are, are handed on here, so that a user has the whole reader under one name.
#![tactic(auto)]

pub mod heads;
pub mod records;
pub mod sheets;

pub use meanings::{coordinates, elements, setting, units, values, visibility};
