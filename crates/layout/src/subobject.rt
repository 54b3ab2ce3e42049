// The head of a subobject: places counted from its start. (specs/Fields/Subobject.antt)
pub const N1: usize = 0;

pub const N2: usize = 2;

pub const SIZE: usize = 4;

// "With the mark its count is N2 + 65536 × N1"
pub const UPPER: usize = 65536;

// the same at another width
pub const UPPER_U64: u64 = 65536;
