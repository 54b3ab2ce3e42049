// The three slices that unfolding fills, by the place that ROOM has for each. (specs/Answers/Calls.antt, `in_rooms`)
pub const TABLE: usize = 1;

pub const ELEMENTS: usize = 2;

pub const BYTES: usize = 3;
