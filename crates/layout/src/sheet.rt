// The sheet as a whole: its limit, where its records start, and the mark. (specs/Fields.antt, specs/Reading/Sheets.antt,
// specs/Shared/Mark.antt)

// "Raise it to 67,108,864 bytes." (02, request 7)
pub const LIMIT: usize = 67108864;

// One byte more than the limit: a length is counted up to it and no further, so that no sum of lengths wraps.
pub const PAST_LIMIT: usize = 67108865;

// The limit without the bytes of the head: how many bytes the records of a sheet may have.
pub const RECORDS_LIMIT: usize = 67108412;

// Passport and descriptor have 452 bytes; the records follow.
pub const START: usize = 452;

// "Points 65535 is a mark"
pub const MARK: u16 = 65535;

// the same as a number of the table
pub const MARK_U64: u64 = 65535;

// How many bytes of passport and descriptor stand after the sum.
pub const START_AFTER_SUM: usize = 436;
