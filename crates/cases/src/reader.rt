// The calls of `reading` that take a sheet and a year.
use crate::calls::{room, setting_of};
use crate::print::{FILL, FILL_BYTE, Number, Numbers, Tell, answer};
use crate::values::double_bits;
use layout::{Corners, HeadAt, PlaneCorners, RecordAt, Refusal, SheetUnit, Sizes};
use reading::setting::Setting;
use reading::{heads, records, sheets};
use std::{fmt, io};

pub fn check(s: &[u8], year: u64) -> Result<Sizes, Refusal> {
    sheets::check(s, setting_of(year)?)
}

// How much memory is lent for numbers, elements and bytes.
#[derive(Clone, Copy)]
pub struct Rooms {
    pub numbers: u64,
    pub elements: u64,
    pub bytes: u64,
}

// Into so much memory, of which all is printed after the answer.
fn unfold_at(rt: &impl Print, s: &[u8], at: Setting, rooms: Rooms) -> io::Result<()> {
    let mut table = [FILL; 64];
    let mut elements = [FILL; 64];
    let mut bytes = [FILL_BYTE; 64];
    let table = &mut table[..room(rooms.numbers, 64)];
    let elements = &mut elements[..room(rooms.elements, 64)];
    let bytes = &mut bytes[..room(rooms.bytes, 64)];
    answer(rt, sheets::unfold(s, at, table, elements, bytes))?;
    print!(rt;
        " |{} |{} |{}",
        Numbers(table),
        Numbers(elements),
        Numbers(bytes)
    )
}

pub fn unfold(rt: &impl Print, s: &[u8], year: u64, rooms: Rooms) -> io::Result<()> {
    match setting_of(year) {
        Ok(at) => unfold_at(rt, s, at, rooms),
        Err(r) => answer(rt, r),
    }
}

pub fn record(s: &[u8], year: u64, number: u64) -> Result<RecordAt, Refusal> {
    records::record_at(s, setting_of(year)?, number)
}

impl Tell for RecordAt {
    fn tell<W: fmt::Write>(&self, f: &mut fmt::Formatter<W>) -> fmt::Result {
        let numbers = [
            self.place as u64,
            self.total as u64,
            u64::from(self.code),
            u64::from(self.in_group),
            u64::from(self.group),
            u64::from(self.reference),
            u64::from(self.generalisation),
            u64::from(self.word),
            u64::from(self.parts),
            self.items as u64,
            u64::from(self.mark),
            u64::from(self.points),
        ];
        write!(f, "{}", Numbers(&numbers))
    }
}

pub fn head(s: &[u8], year: u64) -> Result<HeadAt, Refusal> {
    heads::head_of(s, setting_of(year)?)
}

// The lengths of the texts, with the scale after the designation, and which fields are clean.
impl Tell for HeadAt {
    fn tell<W: fmt::Write>(&self, f: &mut fmt::Formatter<W>) -> fmt::Result {
        let numbers = [
            self.date.length as u64,
            self.designation.length as u64,
            u64::from(self.scale),
            self.title.length as u64,
            self.designation2.length as u64,
        ];
        write!(f, "{}", Numbers(&numbers))?;
        let texts = [self.date, self.designation, self.title, self.designation2];
        for text in texts {
            f.write_str(if text.clean { " clean" } else { " dirty" })?;
        }
        Ok(())
    }
}

pub fn unit(s: &[u8], year: u64) -> Result<SheetUnit, Refusal> {
    heads::unit_of(s, setting_of(year)?)
}

impl Tell for SheetUnit {
    fn tell<W: fmt::Write>(&self, f: &mut fmt::Formatter<W>) -> fmt::Result {
        match self {
            SheetUnit::DevicePoints => f.write_str(" device points"),
            SheetUnit::Metres => f.write_str(" metres"),
            SheetUnit::Radians => f.write_str(" radians"),
            SheetUnit::Degrees => f.write_str(" degrees"),
            SheetUnit::Unknown(byte) => write!(f, " unknown{}", Number(u64::from(*byte))),
        }
    }
}

pub fn corners(s: &[u8], year: u64) -> Result<Corners, Refusal> {
    heads::corners_of(s, setting_of(year)?)
}

// In the order in which they are stored.
fn corner_numbers<T: Copy>(c: &PlaneCorners<T>) -> [T; 8] {
    [
        c.sw_x, c.sw_y, c.nw_x, c.nw_y, c.ne_x, c.ne_y, c.se_x, c.se_y,
    ]
}

impl Tell for PlaneCorners<f64> {
    fn tell<W: fmt::Write>(&self, f: &mut fmt::Formatter<W>) -> fmt::Result {
        write!(f, "{}", Numbers(&corner_numbers(self).map(double_bits)))
    }
}

impl Tell for PlaneCorners<u64> {
    fn tell<W: fmt::Write>(&self, f: &mut fmt::Formatter<W>) -> fmt::Result {
        write!(f, "{}", Numbers(&corner_numbers(self)))
    }
}

impl Tell for Corners {
    fn tell<W: fmt::Write>(&self, f: &mut fmt::Formatter<W>) -> fmt::Result {
        match self {
            Corners::Doubles(c) => c.tell(f),
            Corners::Bits(place, c) => {
                write!(f, " bits{}", Number(*place as u64))?;
                c.tell(f)
            }
        }
    }
}
