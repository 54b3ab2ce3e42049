// What numbers of a sheet stand for: the setting that reads it, the unit of its coordinates and of its heights, an element and the
// coordinate that it is in that unit, the eight plane corners, a record's visibility and a semantic item's number. It is for whoever has
// read a sheet, and for the reader itself, which takes a Setting.
//
// Relied on: the definitions and answer types of `layout`, and of `fields` what a reference number says and the passport's bytes for units.
//
// Promised: each public function takes every value of its parameters (none has a `requires`), and its contract is an equation: with a
// definition of `layout` or one of specs/ that is made of those, with a private field (Setting's year, a Quantity's unit and number), or with
// the kit's `nan_bits` (`not_number`). Of every Setting it is known that its year is one of the nine. So for each input one answer is
// right (proofs/Once.antt). Besides: a double of the corners has the bits stored (proofs/Same.antt), a coordinate is in the unit of its sheet
// (proofs/Measures.antt), and the number of an item is the one that `layout` gives the item (proofs/Items.antt).
#![tactic(auto)]

pub mod coordinates;
pub mod corners;
pub mod elements;
pub mod setting;
pub mod units;
pub mod values;
pub mod visibility;
