// The library as programs in C and Rust hold it: thin functions over the public calls of `reading`, `writing`, `codings`, `index` and `hop`, their
// answers as structs by value (`layout::structs`).
//
// Relied on: these five, and that the caller lends what its declaration says (a slice is a pointer and a length, a `&mut` one is lent to
// this call alone). Promised: the contracts of the calls below, with the year as a number and `number` 0 for success; no call has a
// `requires`, and two results that meet a contract are equal (proofs/Once.antt).
#![tactic(auto)]

pub mod coordinates;
pub mod heads;
pub mod hops;
pub mod indexes;
pub mod records;
mod rows;
pub mod sheets;
pub mod tables;
pub mod texts;
mod units;
pub mod values;
pub mod version;
mod written;
