// The number of a semantic item: of types 1, 2 and 4 a signed integer times ten to the signed scale, of type 8 a double. (01, Record)
ghost use Rattle.layout.specs.Answers.Values.{double_of, semantic_value, item_of};
ghost use Rattle.meanings.specs.Integers.{integer_by};
ghost use Rattle.std.specs.Prelude.{◌≡◌};

use crate::corners::not_number;
use fields::checks::{demand, refused};
use layout::refusals::Reason;
use layout::{Decimal, Refusal, SemanticValue, bounds, item};

fn integer(whole: i64, scale: u8) -> Result<SemanticValue, Refusal>
    ensures { result ≡ integer_by whole scale }
{
    demand(
        scale as u64 != item::INTEGER_NO_SCALE,
        Reason::Semantic,
        item::SCALE,
    )?;
    Ok(SemanticValue::Number(Decimal {
        whole,
        power: i64::from(scale.cast_signed()),
    }))
}

#[tactic(auto, unfolding(layout::specs::Answers::Values::double_of))]
fn double(bits: u64) -> SemanticValue
    ensures { result ≡ double_of bits }
{
    if not_number(bits) {
        return SemanticValue::NotNumber(bits);
    }
    SemanticValue::Double(f64::from_bits(bits))
}

// The widths have a line each, since each has its own signed type.
//
// kind is the item's type, scale its scale byte, bits the stored value. Where kind is 1, 2 or 4, only the low 8, 16 or 32 bits are the value,
// and the rest is left out: so every u64 has an answer, and the answer of an item's own value is that of the item.
#[tactic(auto, unfolding(layout::specs::Answers::Values::semantic_value))]
pub fn value_of(kind: u8, scale: u8, bits: u64) -> Result<SemanticValue, Refusal>
    ensures { result ≡ semantic_value (item_of kind scale bits) }
{
    match kind as u64 {
        item::INTEGER_1 => integer(
            i64::from(((bits % bounds::ONE_BYTE) as u8).cast_signed()),
            scale,
        ),
        item::INTEGER_2 => integer(
            i64::from(((bits % bounds::TWO_BYTES) as u16).cast_signed()),
            scale,
        ),
        item::INTEGER_4 => integer(
            i64::from(((bits % bounds::FOUR_BYTES) as u32).cast_signed()),
            scale,
        ),
        item::DOUBLE => Ok(double(bits)),
        item::NARROW | item::NARROW_126 | item::WIDE | item::LONG => {
            Ok(SemanticValue::Other(kind))
        }
        _ => refused(Reason::Semantic, item::TYPE),
    }
}
