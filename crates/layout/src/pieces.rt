// The writer makes a header in pieces. Where a field stands in its piece: the names from the class code on, the marks from byte 20 on, the
// counts from the subobjects on. (specs/Fields/Header.antt)
pub const IN_GROUP: usize = 4;

pub const GROUP: usize = 6;

pub const BYTE21: usize = 1;

pub const BYTE22: usize = 2;

pub const GENERALISATION: usize = 3;

pub const WORD: usize = 4;

pub const POINTS: usize = 2;
