// The unit of a sheet and that of its heights, and the number that an element stands for. (01, Passport)
ghost use Rattle.layout.specs.Answers.Units.{unit_of, height_unit_of, number_of};
ghost use Rattle.std.specs.Prelude.{◌≡◌};

use crate::corners::not_number;
use layout::{HeightUnit, Number, SheetUnit, Stored};

// "A real sheet is in metres, radians or degrees as +236 is 0, 64 or 65"; of heights, 0 alone says metres.
const METRES: u8 = 0;

const RADIANS: u8 = 64;

const DEGREES: u8 = 65;

// Of a single: the bits of an infinity, and the weight of the sign. One function of both formats would take these as arguments, and is no
// plainer than the comparison.
const INFINITY: u32 = 0x7F800000;

const SIGN: u32 = 0x80000000;

// From the bytes at +96, +98 and +236 of the passport and the bits of the signed number at +312.
#[tactic(auto, unfolding(layout::specs::Answers::Units::unit_of))]
pub fn unit_of(flags: u8, resolution: u32, accuracy: u8, unit: u8) -> SheetUnit
    ensures { result ≡ unit_of flags resolution accuracy unit }
{
    if flags / 8 % 4 == 3 || resolution.cast_signed() < 0 || accuracy != 0 {
        match unit {
            METRES => SheetUnit::Metres,
            RADIANS => SheetUnit::Radians,
            DEGREES => SheetUnit::Degrees,
            _ => SheetUnit::Unknown(unit),
        }
    } else {
        SheetUnit::DevicePoints
    }
}

// From the byte at +237: heights have a unit of their own.
#[tactic(auto, unfolding(layout::specs::Answers::Units::height_unit_of))]
pub fn height_unit_of(unit: u8) -> HeightUnit
    ensures { result ≡ height_unit_of unit }
{
    match unit {
        METRES => HeightUnit::Metres,
        _ => HeightUnit::Unknown(unit),
    }
}

// An integer of two bytes is unsigned, one of four bytes is signed. A floating element that is no number keeps its bits, since a
// double or a single made of them is undefined: a NaN's bits are all that lie above an infinity's, without the sign.
// (Both types are the layout's, and theorems name this function, so it is no `From`.)
#[tactic(auto, using(crate::proofs::Laws::Floats::is_nan, crate::proofs::Laws::Floats::no_nan), unfolding(layout::specs::Answers::Units::number_of))]
pub fn number_of(element: Stored) -> Number
    ensures { result ≡ number_of element }
{
    match element {
        Stored::Short(b) => Number::Whole(i64::from(b)),
        Stored::Long(b) => Number::Whole(i64::from(b.cast_signed())),
        Stored::Single(b) => {
            if INFINITY < b % SIGN {
                Number::NotNumber(b as u64)
            } else {
                Number::Single(f32::from_bits(b))
            }
        }
        Stored::Double(b) => {
            if not_number(b) {
                Number::NotNumber(b)
            } else {
                Number::Double(f64::from_bits(b))
            }
        }
    }
}
