// A code index beside the sheet: built from a sheet, read back, and asked for the records of a class code. (02, requests 3
// and 7)
//
// Relied on: the definitions of `layout` (specs/Index) and their laws, the reader (`reading`), and the leaf code of `fields`.
//
// Promised: the calls of `files` and `sheets` take every value of their parameters (none has a `requires`), and the contract of each is an
// equation with these definitions, and another for the lent slice, which settle the answer and every number of the slice, refusals too
// (proofs/Once.antt). That selecting through the index of a sheet is selecting from the sheet is a law (laws, Index) and a promise of the
// contracts (promises, Index).
#![tactic(auto)]

mod blocks;
mod building;
mod entries;
pub mod files;
mod hits;
mod hops;
mod kinds;
mod listed;
pub mod sheets;
