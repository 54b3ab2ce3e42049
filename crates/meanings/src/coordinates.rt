// Coordinates, each of the type of its unit, so that metres are never taken for radians, nor a height for a coordinate of the plane.
// A quantity's fields are private: it is made here alone, and its unit is taken from the sheet's passport.
ghost use Rattle.layout.specs.Answers.Coordinates.{measured as measured_of, measure_of};
ghost use Rattle.meanings.specs.Coordinates.{coordinate_of, coordinate_in};
ghost use Rattle.std.specs.Prelude.{◌≡◌};

use crate::elements::element_of;
use crate::units::{height_unit_of, number_of, unit_of};
use fields::rests;
use layout::{Dimension, HeightUnit, Measured, Number, Refusal, SheetUnit, Stored, passport};

#[derive(Clone, Copy)]
pub struct DevicePoints;

#[derive(Clone, Copy)]
pub struct Metres;

#[derive(Clone, Copy)]
pub struct Radians;

#[derive(Clone, Copy)]
pub struct Degrees;

// The unit of a real sheet that has an unknown one: the byte that says so.
#[derive(Clone, Copy)]
pub struct UnknownUnit {
    byte: u8,
}

impl UnknownUnit {
    pub fn byte(self) -> u8
        ensures { result ≡ self.byte }
    {
        self.byte
    }
}

// A number in a unit.
#[derive(Clone, Copy)]
pub struct Quantity<U> {
    unit: U,
    number: Number,
}

#[derive(Clone, Copy)]
pub enum Coordinate {
    DevicePoints(Quantity<DevicePoints>),
    Metres(Quantity<Metres>),
    Radians(Quantity<Radians>),
    Degrees(Quantity<Degrees>),
    Unknown(Quantity<UnknownUnit>),
}

// Which of a point's numbers it is: a coordinate of the plane, or a height, in the unit that the passport has for heights.
#[derive(Clone, Copy)]
pub enum PointNumber {
    Plane(Coordinate),
    Height(Quantity<HeightUnit>),
}

impl<U> Quantity<U> {
    fn new(unit: U, number: Number) -> Quantity<U>
        ensures made { result.unit ≡ unit }
        ensures of { result.number ≡ number }
    {
        Quantity { unit, number }
    }
}

impl<U: Copy> Quantity<U> {
    pub fn unit(self) -> U
        ensures { result ≡ self.unit }
    {
        self.unit
    }

    pub fn number(self) -> Number
        ensures { result ≡ self.number }
    {
        self.number
    }
}

#[tactic(auto, unfolding(crate::specs::Coordinates::coordinate_of))]
fn in_unit(unit: SheetUnit, n: Number) -> Coordinate
    ensures { result ≡ coordinate_of unit n }
{
    match unit {
        SheetUnit::DevicePoints => Coordinate::DevicePoints(Quantity::new(DevicePoints, n)),
        SheetUnit::Metres => Coordinate::Metres(Quantity::new(Metres, n)),
        SheetUnit::Radians => Coordinate::Radians(Quantity::new(Radians, n)),
        SheetUnit::Degrees => Coordinate::Degrees(Quantity::new(Degrees, n)),
        SheetUnit::Unknown(byte) => { Coordinate::Unknown(Quantity::new(UnknownUnit { byte }, n)) }
    }
}

fn measured(rest: &[u8; passport::REST_WIDTH], dimension: Dimension, e: Stored) -> Measured
    ensures { result ≡ measured_of rest.now dimension e }
{
    let b = rests::unit_bytes(rest);
    match dimension {
        Dimension::North | Dimension::East => Measured::Plane(
            unit_of(b.flags, b.resolution, b.accuracy, b.unit),
            e,
        ),
        Dimension::Height => Measured::Height(height_unit_of(b.height_unit), e),
    }
}

// An element and its unit: rest has the 304 bytes of the sheet from +96 on, reference is the record's reference bytes as one number, and
// bits are an element of its points as stored.
#[tactic(auto, unfolding(layout::specs::Answers::Coordinates::measure_of))]
pub fn measure_of(
    rest: &[u8; passport::REST_WIDTH],
    reference: u32,
    dimension: Dimension,
    bits: u64,
) -> Result<Measured, Refusal>
    ensures { result ≡ measure_of rest.now reference dimension bits }
{
    let e = element_of(reference, dimension, bits)?;
    Ok(measured(rest, dimension, e))
}

// The one way to make a coordinate or a height: of the same inputs, each in the type of its unit. A caller names no unit.
#[tactic(auto, unfolding(crate::specs::Coordinates::coordinate_in, crate::specs::Coordinates::number_as))]
pub fn coordinate_of(
    rest: &[u8; passport::REST_WIDTH],
    reference: u32,
    dimension: Dimension,
    bits: u64,
) -> Result<PointNumber, Refusal>
    ensures { result ≡ coordinate_in (measure_of rest.now reference dimension bits) }
{
    let m = measure_of(rest, reference, dimension, bits)?;
    Ok(match m {
        Measured::Plane(unit, e) => PointNumber::Plane(in_unit(unit, number_of(e))),
        Measured::Height(unit, e) => PointNumber::Height(Quantity::new(unit, number_of(e))),
    })
}
