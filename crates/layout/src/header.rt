// The header of a record: places counted from the record's start. (specs/Fields/Header.antt)
pub const IDENTIFIER: usize = 0;

pub const IDENTIFIER_IS: u32 = 0x7FFF7FFF;

pub const TOTAL: usize = 4;

pub const METRIC: usize = 8;

pub const CODE: usize = 12;

pub const IN_GROUP: usize = 16;

pub const GROUP: usize = 18;

pub const BYTE20: usize = 20;

pub const BYTE21: usize = 21;

pub const BYTE22: usize = 22;

pub const GENERALISATION: usize = 23;

pub const WORD: usize = 24;

pub const SUBOBJECTS: usize = 28;

pub const POINTS: usize = 30;

// the header's own size; the metric follows
pub const SIZE: usize = 32;

// the same at another width
pub const SIZE_U32: u32 = 32;
