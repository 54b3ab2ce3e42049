// The codings of one-byte text, by the number of passport byte 97. (specs/Codings/Turning.antt, `table_of`)
pub const DOS: u32 = 0;

pub const WINDOWS: u32 = 1;

pub const KOI8: u32 = 2;
