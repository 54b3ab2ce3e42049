// The writer's second pass: a record table that the first has accepted, with its two pools, is written as the records' bytes into a lent
// slice. The pass is `tables::emit`.
//
// Relied on: the definitions of `layout`, the laws of `laws`, the leaf code of `fields`. Nothing is checked here: each
// `requires` is what an accepted table keeps. Each contract says that the encoded pieces stand at their place, and that nothing else is
// changed.
#![tactic(auto)]

pub mod headers;
pub mod items;
pub mod lists;
pub mod parts;
pub mod records;
pub mod tables;
