// The descriptor's four carried bytes: places counted from the first of them, which is the sheet's byte 444.
// (specs/Fields/Descriptor.antt, `in_carried`)
pub const FLAGS: usize = 0;

pub const LABELS: usize = 1;

pub const SECRECY: usize = 2;

pub const KEEPING: usize = 3;
