// The first record with a wanted code, and the frame of the sheet, without reading the sheet: from header to header, up to the first hit. (02,
// request 5)
//
// Relied on: the definitions of `layout` (specs/Hop) and their laws, the leaf code of `fields`, and two checks of `reading_head`.
//
// Promised: the calls of `sheets` take every value of their parameters (none has a `requires`), and the contract of each is an equation with these
// definitions, which settles the answer, refusals too (proofs/Once.antt). How many headers are looked at, that on an accepted sheet the answer is the
// full reading's, and what the answer rests on are laws (laws, Hop) and promises of the contracts (promises, Hop).
#![tactic(auto)]

mod headers;
pub mod sheets;
