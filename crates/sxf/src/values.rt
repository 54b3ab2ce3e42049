// What a record's visibility byte and a semantic item's value stand for.
ghost use Rattle.std.specs.Prelude.{◌≡◌};
ghost use Rattle.layout.specs.Answers.Values.{semantic_value, item_of};
ghost use Rattle.layout.specs.Shared.Visibility.{visibility_of};
ghost use Rattle.layout.specs.Answers.Structs.{visibility_row, plain_row, value_row};
ghost use Rattle.sxf.specs.Doubles.{DefinedValue};

use crate::rows::{Answered, row_of};
use layout::structs::{SxfValue, SxfVisibility};
use layout::{Refusal, Scales, SemanticValue, structs};
use reading::{values, visibility};

#[tactic(auto, unfolding(layout::specs::Answers::Structs::visibility_row))]
fn visibility_row(v: Option<Scales>) -> SxfVisibility
    ensures { result ≡ visibility_row v }
{
    match v {
        None => SxfVisibility {
            set: 0,
            lower: 0,
            upper: 0,
        },
        Some(x) => SxfVisibility {
            set: 1,
            lower: x.lower as u64,
            upper: x.upper as u64,
        },
    }
}

#[unsafe(no_mangle)]
pub extern "C" fn sxf_visibility_of(flags: u8, byte: u8) -> SxfVisibility
    ensures { result ≡ visibility_row (visibility_of flags byte) }
{
    visibility_row(visibility::visibility_of(flags, byte))
}

// A value that is no decimal: its kind, and its bits if it has them.
fn plain_row(kind: u64, bits: u64) -> SxfValue
    ensures { result ≡ plain_row kind bits }
{
    SxfValue {
        number: 0,
        place: 0,
        year: 0,
        kind,
        bits,
        whole: 0,
        power: 0,
    }
}

#[tactic(auto, unfolding(layout::specs::Answers::Structs::value_row, crate::specs::Doubles::DefinedValue))]
impl Answered for SemanticValue {
    type Row = SxfValue;

    ghost as_row = { value_row };

    ghost defined = { DefinedValue };

    fn given(self) -> SxfValue {
        match self {
            SemanticValue::Number(d) => SxfValue {
                number: 0,
                place: 0,
                year: 0,
                kind: structs::DECIMAL,
                bits: 0,
                whole: d.whole,
                power: d.power,
            },
            SemanticValue::Double(x) => plain_row(structs::DOUBLE, f64::to_bits(x)),
            SemanticValue::NotNumber(b) => plain_row(structs::NAN, b),
            SemanticValue::Other(_) => plain_row(structs::NO_NUMBER, 0),
        }
    }

    fn refused(r: Refusal) -> SxfValue {
        SxfValue {
            number: r.reason.number() as u64,
            place: r.place as u64,
            year: r.year as u64,
            kind: structs::NO_NUMBER,
            bits: 0,
            whole: 0,
            power: 0,
        }
    }
}

#[unsafe(no_mangle)]
pub extern "C" fn sxf_value_of(kind: u8, scale: u8, bits: u64) -> SxfValue
    ensures { result ≡ value_row (semantic_value (item_of kind scale bits)) }
{
    row_of(values::value_of(kind, scale, bits))
}
