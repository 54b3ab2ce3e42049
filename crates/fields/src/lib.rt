// Leaf code of both sides: little-endian numbers at a place and parts of slices (numbers), bytes copied (copies), elements of a width
// (elements), a record's header taken apart, and the checks on its identifier and total length (headers), its first count, and its reference
// number both ways (records), what the reference bytes say of a part (shapes), what an item's type says of its value (kinds), the bytes that
// a sheet's units are told by (rests), sums (sums), texts and zeros (texts), where a pass over a sheet stands (cursors), and checks one after
// another (checks) with the lists of checks that reader and writer share (flags).
//
// Relied on: the definitions of `layout`, and the laws of `laws`. Promised: each contract holds the answer to a definition, as an equation, as
// what a list of checks comes to, or with a bound beside it; what writes says that the bytes of a definition stand at the place, and that
// nothing else is changed. What has a `requires` here is called by the library's own crates only, after they have seen that it holds.
#![tactic(auto)]

pub mod checks;
pub mod copies;
pub mod cursors;
pub mod elements;
pub mod flags;
pub mod headers;
pub mod kinds;
pub mod numbers;
pub mod records;
pub mod rests;
pub mod shapes;
pub mod sums;
pub mod texts;
