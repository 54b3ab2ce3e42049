// The reader's first pass: a sheet is gone over once, every check is made in document 01's order, and what unfolding gives is counted.
// Nothing is written.
//
// Relied on: the definitions of `layout`, the laws of `laws`, the leaf code of `fields`, and the checks on the head (`reading_head`).
// Promised: `sheets::check` answers what the definitions say, for any slice of bytes. What has a `requires` here is called by the library's
// own crates only, after they have seen that it holds.
#![tactic(auto)]

pub mod headers;
pub mod items;
pub mod parts;
pub mod records;
pub mod sheets;
pub mod tally;
