// The passport: places in the sheet, widths, and the values that a field must hold. (specs/Fields/Passport.antt)
pub const IDENTIFIER: usize = 0;

pub const IDENTIFIER_IS: u32 = 0x00465853;

pub const OWN_LENGTH: usize = 4;

pub const OWN_LENGTH_IS: u32 = 400;

pub const EDITION: usize = 8;

pub const EDITION_IS: u32 = 0x00040000;

pub const SUM: usize = 12;

// "only its low 32 are kept" (02, request 7): how many values these have
pub const SUM_MODULUS: u64 = 4294967296;

// the first byte after the sum
pub const AFTER_SUM: usize = 16;

pub const DATE: usize = 16;

pub const DATE_WIDTH: usize = 12;

pub const DESIGNATION: usize = 28;

pub const DESIGNATION_WIDTH: usize = 32;

pub const SCALE: usize = 60;

pub const TITLE: usize = 64;

pub const TITLE_WIDTH: usize = 32;

pub const REST: usize = 96;

pub const REST_WIDTH: usize = 304;

pub const FLAGS: usize = 96;

pub const LABELS: usize = 97;

pub const ACCURACY: usize = 98;

pub const SORTING: usize = 99;

pub const EPSG: usize = 100;

// the eight plane corners, each X before its Y
pub const SW_X: usize = 104;

pub const SW_Y: usize = 112;

pub const NW_X: usize = 120;

pub const NW_Y: usize = 128;

pub const NE_X: usize = 136;

pub const NE_Y: usize = 144;

pub const SE_X: usize = 152;

pub const SE_Y: usize = 160;

pub const FRAME: usize = 348;

pub const NORTH: usize = 384;

pub const EAST: usize = 392;
