// The units of the plane and of heights, by their numbers.
ghost use Rattle.std.specs.Prelude.{◌≡◌};
ghost use Rattle.layout.specs.Answers.Structs.{unit_known, height_unit_known, unit_as};

use layout::structs::SxfUnit;
use layout::{HeightUnit, SheetUnit, structs};

fn unit_as(unit: u64, byte: u8) -> SxfUnit
    ensures { result ≡ unit_as unit byte }
{
    SxfUnit {
        number: 0,
        place: 0,
        year: 0,
        unit,
        byte: byte as u64,
    }
}

// The two units are two enums, whose cases differ, so each has its own numbers.
#[tactic(auto, unfolding(layout::specs::Answers::Structs::unit_known))]
pub fn unit_known(u: SheetUnit) -> SxfUnit
    ensures { result ≡ unit_known u }
{
    match u {
        SheetUnit::DevicePoints => unit_as(structs::DEVICE_POINTS, 0),
        SheetUnit::Metres => unit_as(structs::METRES, 0),
        SheetUnit::Radians => unit_as(structs::RADIANS, 0),
        SheetUnit::Degrees => unit_as(structs::DEGREES, 0),
        SheetUnit::Unknown(b) => unit_as(structs::UNKNOWN_UNIT, b),
    }
}

#[tactic(auto, unfolding(layout::specs::Answers::Structs::height_unit_known))]
pub fn height_unit_known(u: HeightUnit) -> SxfUnit
    ensures { result ≡ height_unit_known u }
{
    match u {
        HeightUnit::Metres => unit_as(structs::METRES, 0),
        HeightUnit::Unknown(b) => unit_as(structs::UNKNOWN_UNIT, b),
    }
}
