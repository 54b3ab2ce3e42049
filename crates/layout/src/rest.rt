// The rest of the passport: places counted from its first byte, which is the sheet's byte 96. (specs/Fields/Passport.antt, `in_rest`)
pub const FLAGS: usize = 0;

pub const LABELS: usize = 1;

pub const ACCURACY: usize = 2;

pub const SORTING: usize = 3;

pub const EPSG: usize = 4;

pub const SW_X: usize = 8;

pub const SW_Y: usize = 16;

pub const NW_X: usize = 24;

pub const NW_Y: usize = 32;

pub const NE_X: usize = 40;

pub const NE_Y: usize = 48;

pub const SE_X: usize = 56;

pub const SE_Y: usize = 64;

pub const UNIT: usize = 140;

pub const HEIGHT_UNIT: usize = 141;

pub const RESOLUTION: usize = 216;

pub const NORTH: usize = 288;

pub const EAST: usize = 296;

pub const OFFSET_WIDTH: usize = 8;
