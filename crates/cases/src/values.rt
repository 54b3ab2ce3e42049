// The calls of `reading` on stored numbers: what they stand for.
use crate::print::{Number, Numbers, Tell};
use layout::{Dimension, HeightUnit, Scales, SemanticValue, SheetUnit};
use reading::coordinates::{Coordinate, PointNumber, Quantity};
use std::fmt;

// What stands for the bits of a NaN, which are undefined.
const NAN: u64 = u64::MAX;

pub fn double_bits(d: f64) -> u64 {
    if d.is_nan() { NAN } else { d.to_bits() }
}

fn single_bits(f: f32) -> u64 {
    if f.is_nan() {
        NAN
    } else {
        u64::from(f.to_bits())
    }
}

impl Tell for Option<Scales> {
    fn tell<W: fmt::Write>(&self, f: &mut fmt::Formatter<W>) -> fmt::Result {
        match self {
            None => f.write_str(" unset"),
            Some(scales) => write!(f, "{}", Numbers(&[scales.lower, scales.upper])),
        }
    }
}

impl Tell for i64 {
    fn tell<W: fmt::Write>(&self, f: &mut fmt::Formatter<W>) -> fmt::Result {
        if *self < 0 {
            f.write_str(" minus")?;
        }
        write!(f, "{}", Number(self.unsigned_abs()))
    }
}

impl Tell for f64 {
    fn tell<W: fmt::Write>(&self, f: &mut fmt::Formatter<W>) -> fmt::Result {
        write!(f, " double{}", Number(double_bits(*self)))
    }
}

impl Tell for f32 {
    fn tell<W: fmt::Write>(&self, f: &mut fmt::Formatter<W>) -> fmt::Result {
        write!(f, " single{}", Number(single_bits(*self)))
    }
}

// A whole number and the power of ten that it is times, a double's bits, or the type of an item that is a text.
impl Tell for SemanticValue {
    fn tell<W: fmt::Write>(&self, f: &mut fmt::Formatter<W>) -> fmt::Result {
        match self {
            SemanticValue::Number(d) => {
                d.whole.tell(f)?;
                d.power.tell(f)
            }
            SemanticValue::Double(x) => x.tell(f),
            SemanticValue::NotNumber(bits) => write!(f, " no number{}", Number(*bits)),
            SemanticValue::Other(kind) => write!(f, " other{}", Number(u64::from(*kind))),
        }
    }
}

impl Tell for layout::Number {
    fn tell<W: fmt::Write>(&self, f: &mut fmt::Formatter<W>) -> fmt::Result {
        match self {
            layout::Number::Whole(n) => n.tell(f),
            layout::Number::Single(x) => x.tell(f),
            layout::Number::Double(x) => x.tell(f),
            layout::Number::NotNumber(bits) => write!(f, " no number{}", Number(*bits)),
        }
    }
}

impl Tell for Coordinate {
    fn tell<W: fmt::Write>(&self, f: &mut fmt::Formatter<W>) -> fmt::Result {
        let (unit, number) = match *self {
            Coordinate::DevicePoints(c) => (SheetUnit::DevicePoints, c.number()),
            Coordinate::Metres(c) => (SheetUnit::Metres, c.number()),
            Coordinate::Radians(c) => (SheetUnit::Radians, c.number()),
            Coordinate::Degrees(c) => (SheetUnit::Degrees, c.number()),
            Coordinate::Unknown(c) => (SheetUnit::Unknown(c.unit().byte()), c.number()),
        };
        unit.tell(f)?;
        number.tell(f)
    }
}

impl Tell for Quantity<HeightUnit> {
    fn tell<W: fmt::Write>(&self, f: &mut fmt::Formatter<W>) -> fmt::Result {
        match self.unit() {
            HeightUnit::Metres => f.write_str(" height metres")?,
            HeightUnit::Unknown(byte) => write!(f, " height unknown{}", Number(u64::from(byte)))?,
        }
        self.number().tell(f)
    }
}

impl Tell for PointNumber {
    fn tell<W: fmt::Write>(&self, f: &mut fmt::Formatter<W>) -> fmt::Result {
        match self {
            PointNumber::Plane(c) => c.tell(f),
            PointNumber::Height(h) => h.tell(f),
        }
    }
}

// North, east and height are 0 to 2.
pub fn dimension(n: u64) -> Dimension {
    match n {
        0 => Dimension::North,
        1 => Dimension::East,
        _ => Dimension::Height,
    }
}
