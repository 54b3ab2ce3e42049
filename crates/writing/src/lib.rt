// The writer: what a program calls to write a sheet for a setting.
//
// Relied on: the definitions of `layout`, the rules on a head and its bytes (`writing_head`), the two passes over a record table
// (`writing_check` says whether it is one and how long its records are, `writing_emit` writes them), and the settings of `meanings`.
//
// Promised: each of the two calls, for a setting and for a year, takes every value of its parameters (none has a `requires`), and its
// contract is two equations with `layout`'s writer, which settle the answer and every byte of the lent slice, refusals too (proofs/Once.antt).
#![tactic(auto)]

pub mod sheets;

pub use meanings::setting;
