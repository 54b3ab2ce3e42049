// The head of a sheet in the reader: its length, passport and descriptor are checked (check), and of an accepted sheet they answer lengths, unit
// and corners (answers). Hopping asks for the length and the identifiers here too.
//
// Relied on: the definitions of `layout`, the laws of `laws`, the leaf code of `fields`, and what numbers stand for (`meanings`). Promised:
// the checks are those of the definition, in its order. What has a `requires` here is called by the library's own crates only, after they
// have seen that it holds.
#![tactic(auto)]

pub mod answers;
pub mod check;
