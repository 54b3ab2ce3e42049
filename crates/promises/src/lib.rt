// What the contracts of the public calls promise together; no program runs any of it.
//
// Relied on: the contracts of `reading`, `writing`, `codings`, `index` and `hop` as the check reads them, the laws of `laws`, and what `fields` says of
// parts and copies.
//
// Promised, as theorems about those contracts (proofs/): the 2017 reader accepts exactly what keeps the layout and answers as it says
// (Exact); what a setting changes, for every call (Years); both round trips, with the head as a caller has it in hand (Again, Heads);
// that a sheet and the same with its tails cleared are answered alike (Cleared); that what is written reads the same at every later setting
// (Later); the bits of the corners and the unit of a coordinate, from the sheet's bytes (Stored); that every element of a sheet has an answer
// (Elements); texts turned there and back (Codings); that selecting through the index of a sheet is selecting from it (Index); and how many
// headers a hop looks at, what it finds and what its answer rests on (Hop). Where it matters they ask for what the types of what is lent say
// (`Bytes`, `Typed`), since a contract is about lists of any numbers.
//
// Promised, as functions that ask nothing: what the types of lent slices say (`lent`), that acceptance is keeping the layout (`kept`), both
// round trips (`round`), how a cleared sheet reads (`tails`), what an index is and selects (`picks`), and what a hop finds (`hops`).
#![tactic(auto)]

pub mod hops;
pub mod kept;
pub mod lent;
pub mod picks;
pub mod round;
pub mod tails;
