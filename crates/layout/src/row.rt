// The record table: which number has which index in the row of a record, of a part and of an item. (specs/Shared/Row.antt)
pub const CODE: usize = 0;

pub const IN_GROUP: usize = 1;

pub const GROUP: usize = 2;

pub const REFERENCE: usize = 3;

pub const GENERALISATION: usize = 4;

pub const WORD: usize = 5;

pub const PARTS: usize = 6;

pub const ITEMS: usize = 7;

pub const MARK: usize = 8;

// how many numbers a record has before those of its parts
pub const WIDTH: usize = 9;

// of a part
pub const POINTS: usize = 0;

pub const TEXT_LENGTH: usize = 1;

pub const PART_WIDTH: usize = 2;

// of an item
pub const ITEM_CODE: usize = 0;

pub const ITEM_TYPE: usize = 1;

pub const ITEM_SCALE: usize = 2;

pub const ITEM_LENGTH: usize = 3;

pub const ITEM_WIDTH: usize = 4;

// the first part's points, counted from the record's first number; and how many numbers a record with one part has
pub const FIRST_POINTS: usize = 9;

pub const WITH_FIRST: usize = 11;

// the widths as numbers of the table are counted
pub const WIDTH_U64: u64 = 9;

pub const PART_WIDTH_U64: u64 = 2;

pub const ITEM_WIDTH_U64: u64 = 4;
