// A block of a code index: where its fields stand, counted from its start. (specs/Fields/Block.antt)
pub const NUMBER: usize = 0;

pub const COUNT: usize = 2;

pub const ENTRIES: usize = 4;

pub const ENTRIES_WIDTH: usize = 504;

// The two bytes before the sum.
pub const ENDING: usize = 508;

pub const SUM: usize = 510;

// "the sum of the first 510 bytes modulo 65536"
pub const MODULUS: u64 = 65536;

pub const SIZE: usize = 512;

// How many entries a full block has, and what its two bytes before the sum hold, in either kind.
pub const FULL: usize = 56;

pub const OLD_FULL: usize = 63;

pub const ENDING_IS: u16 = 1;

pub const OLD_ENDING_IS: u16 = 0;

// An entry: where its fields stand, counted from its own start. Code and place start alike in both kinds; localisation and size are those of a new
// block. (specs/Fields/Entry.antt)
pub const ENTRY_CODE: usize = 0;

pub const ENTRY_PLACE: usize = 4;

pub const ENTRY_LOCALISATION: usize = 8;

pub const ENTRY_SIZE: usize = 9;

// How many places four bytes can tell.
pub const PLACES: usize = 4294967296;

// In an old block the place has three bytes: two, and the third.
pub const OLD_PLACE_HIGH: usize = 6;

// What one in the third byte counts.
pub const OLD_HIGH_UNIT: usize = 65536;

pub const OLD_LOCALISATION: usize = 7;

pub const OLD_ENTRY_SIZE: usize = 8;

// How many numbers reading gives for an entry, and selecting for a hit. (specs/Index/Selecting.antt)
pub const ROW_WIDTH: usize = 3;
