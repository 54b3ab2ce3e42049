// The descriptor: places in the sheet, widths, and the values that a field must hold. (specs/Fields/Descriptor.antt)
pub const IDENTIFIER: usize = 400;

pub const IDENTIFIER_IS: u32 = 0x00544144;

pub const OWN_LENGTH: usize = 404;

pub const OWN_LENGTH_IS: u32 = 52;

pub const DESIGNATION: usize = 408;

pub const DESIGNATION_WIDTH: usize = 32;

pub const COUNT: usize = 440;

pub const CARRIED: usize = 444;

pub const CARRIED_WIDTH: usize = 4;

pub const FLAGS: usize = 444;

pub const LABELS: usize = 445;

pub const SECRECY: usize = 446;

pub const KEEPING: usize = 447;

pub const RESERVED: usize = 448;

pub const RESERVED_WIDTH: usize = 4;
