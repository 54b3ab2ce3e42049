// A coordinate of a point, from its bits as stored to the double that it stands for, in the unit of its sheet.
ghost use Rattle.std.specs.Prelude.{◌≡◌};
ghost use Rattle.layout.specs.Answers.Structs.{number_kind, number_bits, stored_width, coordinate_as, coordinate_row, measure_by};
ghost use Rattle.layout.specs.Answers.Units.{number_of};
ghost use Rattle.sxf.specs.Doubles.{DefinedNumber};

use crate::rows::{Answered, row_of};
use crate::units::{height_unit_known, unit_known};
use layout::refusals::Reason;
use layout::structs::{SxfCoordinate, SxfUnit};
use layout::{Dimension, Measured, Number, Refusal, Stored, passport, structs};
use reading::coordinates::measure_of;
use reading::units::number_of;
use std::num::nearest_i64_to_f64;

fn number_kind(n: Number) -> u64
    ensures { result ≡ number_kind n }
{
    match n {
        Number::Whole(_) => structs::WHOLE,
        Number::Single(_) => structs::SINGLE,
        Number::Double(_) => structs::DOUBLE,
        Number::NotNumber(_) => structs::NAN,
    }
}

// The bits of the double that a number stands for. A float here is no NaN, whose bits would be undefined; `NotNumber` has its stored bits.
#[tactic(auto, unfolding(crate::specs::Doubles::DefinedNumber))]
fn number_bits(n: Number) -> u64
    requires { DefinedNumber n }
    ensures { result ≡ number_bits n }
{
    match n {
        Number::Whole(z) => f64::to_bits(nearest_i64_to_f64(z)),
        Number::Single(x) => f64::to_bits(x as f64),
        Number::Double(x) => f64::to_bits(x),
        Number::NotNumber(b) => b,
    }
}

fn stored_width(e: Stored) -> u64
    ensures { result ≡ stored_width e }
{
    match e {
        Stored::Short(_) => 2,
        Stored::Long(_) => 4,
        Stored::Single(_) => 4,
        Stored::Double(_) => 8,
    }
}

fn coordinate_as(u: SxfUnit, e: Stored) -> SxfCoordinate
    ensures { result ≡ coordinate_as u e }
{
    let n = number_of(e);
    SxfCoordinate {
        number: 0,
        place: 0,
        year: 0,
        unit: u.unit,
        byte: u.byte,
        width: stored_width(e),
        kind: number_kind(n),
        bits: number_bits(n),
    }
}

#[tactic(auto, unfolding(layout::specs::Answers::Structs::coordinate_row))]
impl Answered for Measured {
    type Row = SxfCoordinate;

    ghost as_row = { coordinate_row };

    fn given(self) -> SxfCoordinate {
        match self {
            Measured::Plane(u, e) => coordinate_as(unit_known(u), e),
            Measured::Height(u, e) => coordinate_as(height_unit_known(u), e),
        }
    }

    fn refused(r: Refusal) -> SxfCoordinate {
        SxfCoordinate {
            number: r.reason.number() as u64,
            place: r.place as u64,
            year: r.year as u64,
            unit: 0,
            byte: 0,
            width: 0,
            kind: structs::NO_NUMBER,
            bits: 0,
        }
    }
}

// C has a dimension as a number.
#[tactic(auto, unfolding(layout::specs::Answers::Structs::measure_by))]
fn measure_by(
    rest: &[u8; passport::REST_WIDTH],
    reference: u32,
    dimension: u32,
    bits: u64,
) -> Result<Measured, Refusal>
    ensures { result ≡ measure_by rest.now reference dimension bits }
{
    match dimension {
        structs::NORTH => measure_of(rest, reference, Dimension::North, bits),
        structs::EAST => measure_of(rest, reference, Dimension::East, bits),
        structs::HEIGHT => measure_of(rest, reference, Dimension::Height, bits),
        _ => Err(Refusal {
            reason: Reason::Ask,
            place: 0,
            year: 0,
        }),
    }
}

// rest has the 304 bytes of the sheet from +96 on, and reference is the record's reference bytes as one number.
#[unsafe(no_mangle)]
pub extern "C" fn sxf_coordinate_of(
    rest: &[u8; passport::REST_WIDTH],
    reference: u32,
    dimension: u32,
    bits: u64,
) -> SxfCoordinate
    ensures { result ≡ coordinate_row (measure_by rest.now reference dimension bits) }
{
    row_of(measure_by(rest, reference, dimension, bits))
}
