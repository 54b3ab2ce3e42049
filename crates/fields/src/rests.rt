// The bytes of the passport's rest that say which units a sheet is in. (01, Passport; 000, table 1)
ghost use Rattle.std.specs.Prelude.{◌≡◌, ◌≤◌, length};
ghost use Rattle.fields.specs.Rests.{unit_bytes};
ghost use Rattle.layout.specs.Fields.Passport;

use crate::numbers;
use layout::rest;

#[derive(Clone, Copy)]
pub struct UnitBytes {
    pub flags: u8,
    pub resolution: u32,
    pub accuracy: u8,
    pub unit: u8,
    pub height_unit: u8,
}

pub fn unit_bytes(r: &[u8]) -> UnitBytes
    requires { (Passport.rest).width ≤ length r.now }
    ensures { result ≡ unit_bytes r.now }
{
    let flags = numbers::at::<u8>(r, rest::FLAGS);
    let resolution = numbers::at::<u32>(r, rest::RESOLUTION);
    let accuracy = numbers::at::<u8>(r, rest::ACCURACY);
    let unit = numbers::at::<u8>(r, rest::UNIT);
    let height_unit = numbers::at::<u8>(r, rest::HEIGHT_UNIT);
    UnitBytes {
        flags,
        resolution,
        accuracy,
        unit,
        height_unit,
    }
}
