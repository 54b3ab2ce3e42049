// The years that a sheet can be read for, and the year of each feature. (specs/Years.antt)

// "The setting is 1999, 2004, 2006, 2008, 2012, 2014, 2015, 2016 or 2017, fixed constants of the reader."
pub const Y1999: u32 = 1999;

pub const Y2004: u32 = 2004;

pub const Y2006: u32 = 2006;

pub const Y2008: u32 = 2008;

pub const Y2012: u32 = 2012;

pub const Y2014: u32 = 2014;

pub const Y2015: u32 = 2015;

pub const Y2016: u32 = 2016;

pub const Y2017: u32 = 2017;

// "2004 spline bits, offsets at +384 and +392 (any non-zero byte), the mark 65535"
pub const SPLINE_BITS: u32 = 2004;

pub const NORTH_OFFSET: u32 = 2004;

pub const EAST_OFFSET: u32 = 2004;

pub const MARK_65535: u32 = 2004;

// "2006 accuracy not 0"
pub const ACCURACY_SET: u32 = 2006;

// "2008 special sorting, binding vector, Unicode"
pub const SPECIAL_SORTING: u32 = 2008;

pub const BINDING_VECTOR: u32 = 2008;

pub const UNICODE: u32 = 2008;

// "2012 type 128"
pub const TYPE_128: u32 = 2012;

// "2014 above, below"
pub const ABOVE_ALL: u32 = 2014;

pub const BELOW_ALL: u32 = 2014;

// "2015 compressed graphics"
pub const COMPRESSED_GRAPHICS: u32 = 2015;

// "2016 multipolygon"
pub const MULTIPOLYGON: u32 = 2016;

// "2017 automatic GUID"
pub const AUTOMATIC_GUID: u32 = 2017;

// "Undated in 000 and set here to 2017: EPSG not 0, vertical alignment, edit date."
pub const EPSG_SET: u32 = 2017;

pub const VERTICAL_ALIGNMENT: u32 = 2017;

pub const EDIT_DATE: u32 = 2017;
