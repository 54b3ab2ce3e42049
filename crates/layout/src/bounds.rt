// One more than the largest number that so many bytes hold. (specs/Bytes.antt)
pub const ONE_BYTE: u64 = 256;

pub const TWO_BYTES: u64 = 65536;

pub const THREE_BYTES: u64 = 16777216;

pub const FOUR_BYTES: u64 = 4294967296;
