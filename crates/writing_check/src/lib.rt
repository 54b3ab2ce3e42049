// The writer's first pass: the rows of a record table are taken one by one, every rule is asked in document 01's order, and records and
// their bytes are counted. Nothing is written.
//
// Relied on: the definitions of `layout`, the laws of `laws`, and the leaf code of `fields`. Promised: `tables::check` answers what
// the definitions say, for any three slices. What has a `requires` here is called by this crate only, after it has seen that it holds.
#![tactic(auto)]

pub mod elements;
pub mod items;
pub mod parts;
pub mod pieces;
pub mod places;
pub mod record_table;
pub mod rows;
pub mod tables;
