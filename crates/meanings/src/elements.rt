// The element that stored bits are: which kind its record's reference bytes say, and whether its width holds them. (01, Record)
ghost use Rattle.layout.specs.Answers.Coordinates.{planar_element, height_element, element_of};
ghost use Rattle.meanings.specs.Narrow.{Narrowed};
ghost use Rattle.std.specs.Prelude.{◌≡◌};

use fields::checks::{demand, refused};
use fields::shapes;
use layout::refusals::Reason;
use layout::{Dimension, Refusal, Stored, bounds, row};
use std::num::TryFromIntError;

// Bits that must be in the width of T: too wide ones are refused, and never cut.
fn narrow<T: TryFrom<u64, Error = TryFromIntError>>(bits: u64) -> Result<T, Refusal>
    ensures { Narrowed (T.try_from_gives bits) result }
{
    match T::try_from(bits) {
        Ok(b) => Ok(b),
        Err(_) => refused(Reason::Table, 0),
    }
}

fn planar(size: bool, float: bool, bits: u64) -> Result<Stored, Refusal>
    ensures { result ≡ planar_element size float bits }
{
    match (size, float) {
        (false, false) => Ok(Stored::Short(narrow(bits)?)),
        (true, false) => Ok(Stored::Long(narrow(bits)?)),
        (false, true) => Ok(Stored::Single(narrow(bits)?)),
        (true, true) => Ok(Stored::Double(bits)),
    }
}

fn height(size: bool, float: bool, bits: u64) -> Result<Stored, Refusal>
    ensures { result ≡ height_element size float bits }
{
    match (size, float) {
        (true, true) => Ok(Stored::Double(bits)),
        _ => Ok(Stored::Single(narrow(bits)?)),
    }
}

// reference is the record's reference bytes as one number, as the table has them; bits are an element of its points as stored. Bits that
// are too wide and a reference that is no three bytes' are refused as the writer refuses them; a height that the record has not is ASK.
#[tactic(auto, unfolding(layout::specs::Answers::Coordinates::element_of))]
pub fn element_of(reference: u32, dimension: Dimension, bits: u64) -> Result<Stored, Refusal>
    ensures { result ≡ element_of reference dimension bits }
{
    demand(
        (reference as u64) < bounds::THREE_BYTES,
        Reason::Table,
        row::REFERENCE,
    )?;
    let shape = shapes::shape_in(reference as u64);
    match dimension {
        Dimension::North | Dimension::East => planar(shape.size, shape.float, bits),
        Dimension::Height => {
            demand(shape.three, Reason::Ask, 0)?;
            height(shape.size, shape.float, bits)
        }
    }
}
