// A semantic item: places counted from its start, and its types. (specs/Fields/Item.antt, specs/Shared/Types.antt)
pub const CODE: usize = 0;

pub const TYPE: usize = 2;

pub const SCALE: usize = 3;

// the size of the item's head: code, type, scale
pub const SIZE: usize = 4;

// "128: scale 0xFF, then a 4-byte length"; and the head with that length
pub const LONG_LENGTH: usize = 4;

pub const LONG_SIZE: usize = 8;

pub const LONG_LENGTH_WIDTH: usize = 4;

// the types, by their kinds: "Types 0 and 126: scale + 1 bytes, the last zero. 127: 2 × (scale + 1) bytes, the last two zero."
pub const NARROW: u64 = 0;

pub const NARROW_126: u64 = 126;

pub const WIDE: u64 = 127;

// "1, 2, 4: that many bytes, a signed integer times ten to the signed scale, scale byte 0x80 refused."
pub const INTEGER_1: u64 = 1;

pub const INTEGER_2: u64 = 2;

pub const INTEGER_4: u64 = 4;

pub const INTEGER_NO_SCALE: u64 = 0x80;

// "8: a double, scale carried. 128: scale 0xFF, then a 4-byte length"
pub const DOUBLE: u64 = 8;

pub const DOUBLE_LENGTH: usize = 8;

pub const LONG: u64 = 128;

pub const LONG_SCALE: u64 = 0xFF;
