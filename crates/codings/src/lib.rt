// Text of three codings, DOS, Windows and KOI-8, turned into UTF-16 and back. (02, request 1)
//
// Relied on: the definitions of `layout` (specs/Codings), and their laws.
//
// Promised: the two calls of `utf16` take every value of their parameters (none has a `requires`), and the contract of each is two equations
// with these definitions, which settle the answer and every number of the lent slice, refusals too (proofs/Once.antt). What holds of each
// table is in `laws` (Codings): no two bytes of a coding share a character, and turning there and back gives the same bytes.
#![tactic(auto)]

mod bytes;
mod characters;
mod coding;
mod slots;
mod tables;
pub mod utf16;
mod way;
