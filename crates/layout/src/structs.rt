// The answers as programs in C hold them: structs by value, whose first number is 0 for success. (include/sxf.h)

// The version of the calls for C, `SXF_VERSION` of include/sxf.h: raised where a program has to be changed or built again. (specs/Answers/Structs.antt)
pub const VERSION: u32 = 4;

// number 0: accepted, with its sizes. Otherwise the refusal, and the sizes are 0.
#[repr(C)]
#[derive(Clone, Copy)]
pub struct SxfChecked {
    pub number: u64,
    pub place: u64,
    pub year: u64,
    pub sum: u64,
    pub records: u64,
    pub numbers: u64,
    pub elements: u64,
    pub bytes: u64,
}

// number 0: written, so many bytes, 16-bit units or numbers. Otherwise the refusal, and the length is 0.
#[repr(C)]
#[derive(Clone, Copy)]
pub struct SxfWritten {
    pub number: u64,
    pub place: u64,
    pub year: u64,
    pub length: u64,
}

// number 0: an index of so many entries, in so many blocks. Otherwise the refusal, and the rest is 0.
#[repr(C)]
#[derive(Clone, Copy)]
pub struct SxfIndex {
    pub number: u64,
    pub place: u64,
    pub year: u64,
    pub entries: u64,
    pub blocks: u64,
}

// number 0: found is 1 where there is a record of the code, and 0 where there is none; then its number, `at` and total are 0 too. looked is how
// many headers were looked at. Otherwise the refusal, and the rest is 0.
#[repr(C)]
#[derive(Clone, Copy)]
pub struct SxfHop {
    pub number: u64,
    pub place: u64,
    pub year: u64,
    pub found: u64,
    pub record: u64,
    pub at: u64,
    pub total: u64,
    pub looked: u64,
}

// number 0: the record that starts at `at`. Otherwise the refusal, and the rest is 0.
#[repr(C)]
#[derive(Clone, Copy)]
pub struct SxfRecord {
    pub number: u64,
    pub place: u64,
    pub year: u64,
    pub at: u64,
    pub total: u64,
    pub code: u64,
    pub in_group: u64,
    pub group: u64,
    pub reference: u64,
    pub generalisation: u64,
    pub word: u64,
    pub parts: u64,
    pub items: u64,
    pub mark: u64,
    pub points: u64,
}

// number 0: the lengths of the four texts, the scale, and for each text field 1 if it is clean. Otherwise the refusal, and the rest is 0.
#[repr(C)]
#[derive(Clone, Copy)]
pub struct SxfHead {
    pub number: u64,
    pub place: u64,
    pub year: u64,
    pub date: u64,
    pub designation: u64,
    pub title: u64,
    pub designation2: u64,
    pub scale: u64,
    pub date_clean: u64,
    pub designation_clean: u64,
    pub title_clean: u64,
    pub designation2_clean: u64,
}

// The units by their numbers.
pub const DEVICE_POINTS: u64 = 1;

pub const METRES: u64 = 2;

pub const RADIANS: u64 = 3;

pub const DEGREES: u64 = 4;

pub const UNKNOWN_UNIT: u64 = 5;

// number 0: a unit, and for an unknown one the byte that names none. Otherwise the refusal, and the rest is 0.
#[repr(C)]
#[derive(Clone, Copy)]
pub struct SxfUnit {
    pub number: u64,
    pub place: u64,
    pub year: u64,
    pub unit: u64,
    pub byte: u64,
}

// number 0: the bits of the eight, and the place of the first that is a NaN, or 0. Otherwise the refusal, and the rest is 0.
#[repr(C)]
#[derive(Clone, Copy)]
pub struct SxfCorners {
    pub number: u64,
    pub place: u64,
    pub year: u64,
    pub nan_at: u64,
    pub sw_x: u64,
    pub sw_y: u64,
    pub nw_x: u64,
    pub nw_y: u64,
    pub ne_x: u64,
    pub ne_y: u64,
    pub se_x: u64,
    pub se_y: u64,
}

// set 1: the denominators of the two bounds. set 0: none is set, and both are 0.
#[repr(C)]
#[derive(Clone, Copy)]
pub struct SxfVisibility {
    pub set: u64,
    pub lower: u64,
    pub upper: u64,
}

// What a number is, by its number: a coordinate is WHOLE, SINGLE, DOUBLE or NAN; an item's value is DECIMAL, DOUBLE or NAN, and a text NO_NUMBER.
pub const NO_NUMBER: u64 = 0;

pub const WHOLE: u64 = 1;

pub const SINGLE: u64 = 2;

pub const DOUBLE: u64 = 3;

pub const NAN: u64 = 4;

pub const DECIMAL: u64 = 5;

// The dimensions by their numbers.
pub const NORTH: u32 = 0;

pub const EAST: u32 = 1;

pub const HEIGHT: u32 = 2;

// number 0: an element of so many bytes in a unit, what kind of number it is, and the bits of the double that it stands for; for a NaN the
// bits are those stored. Otherwise the refusal, and the rest is 0.
#[repr(C)]
#[derive(Clone, Copy)]
pub struct SxfCoordinate {
    pub number: u64,
    pub place: u64,
    pub year: u64,
    pub unit: u64,
    pub byte: u64,
    pub width: u64,
    pub kind: u64,
    pub bits: u64,
}

// number 0: kind says whether the value is whole times ten to the power, a double or a NaN of these bits, or a text, which is no number.
// Otherwise the refusal. What a value does not have is 0.
#[repr(C)]
#[derive(Clone, Copy)]
pub struct SxfValue {
    pub number: u64,
    pub place: u64,
    pub year: u64,
    pub kind: u64,
    pub bits: u64,
    pub whole: i64,
    pub power: i64,
}
