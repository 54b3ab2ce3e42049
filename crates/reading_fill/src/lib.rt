// The reader's second pass: a sheet that the first has accepted fills three lent slices, the record table (table) and the two pools
// (elements, bytes). The pass is `sheets::fill`.
//
// Relied on: the definitions of `layout`, the laws of `laws`, the leaf code of `fields`. Nothing is checked here: each `requires` is
// what an accepted sheet keeps. Each contract says that the slices hold what the flattened pieces are, and else what they held.
#![tactic(auto)]

pub mod filler;
pub mod items;
pub mod parts;
pub mod records;
pub mod rows;
pub mod sheets;
