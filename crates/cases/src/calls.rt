// The calls of a line, and what each answers, on the form that its words have filled.
ghost use Rattle.std.specs.Prelude.{◌≤◌};

use crate::form::Form;
use crate::lists::List;
use crate::print::{Number, Tell, answer};
use crate::reader::Rooms;
use crate::values::dimension;
use crate::words::BadLine;
use crate::{reader, writer};
use layout::{Refusal, years};
use reading::coordinates::coordinate_of;
use reading::setting::Setting;
use reading::units::unit_of;
use reading::values::value_of;
use reading::visibility::visibility_of;
use std::str::FromStr;
use std::{fmt, io};

#[derive(Clone, Copy)]
pub enum Call {
    Check,
    Unfold,
    Record,
    Head,
    Unit,
    Corners,
    Write,
    Setting,
    Constant,
    Visibility,
    Value,
    Units,
    Coordinate,
}

impl FromStr for Call {
    type Err = BadLine;

    fn from_str(name: &str) -> Result<Call, BadLine> {
        match name {
            "check" => Ok(Call::Check),
            "unfold" => Ok(Call::Unfold),
            "record" => Ok(Call::Record),
            "head" => Ok(Call::Head),
            "unit" => Ok(Call::Unit),
            "corners" => Ok(Call::Corners),
            "write" => Ok(Call::Write),
            "setting" => Ok(Call::Setting),
            "constant" => Ok(Call::Constant),
            "visibility" => Ok(Call::Visibility),
            "value" => Ok(Call::Value),
            "units" => Ok(Call::Units),
            "coordinate" => Ok(Call::Coordinate),
            _ => Err(BadLine),
        }
    }
}

impl Tell for Setting {
    fn tell<W: fmt::Write>(&self, f: &mut fmt::Formatter<W>) -> fmt::Result {
        write!(f, "{}", Number(u64::from(self.year())))
    }
}

fn low_byte(n: u64) -> u8 {
    (n % 0x100) as u8
}

pub fn low_word(n: u64) -> u32 {
    (n % 0x100000000) as u32
}

// As much memory as the line says, but no more than there is.
pub fn room(n: u64, most: usize) -> usize
    ensures { result ≤ most }
{
    n.min(most as u64) as usize
}

pub fn setting_of(year: u64) -> Result<Setting, Refusal> {
    Setting::new(low_word(year))
}

fn constant(year: u64) -> Setting {
    match low_word(year) {
        years::Y1999 => Setting::Y1999,
        years::Y2004 => Setting::Y2004,
        years::Y2006 => Setting::Y2006,
        years::Y2008 => Setting::Y2008,
        years::Y2012 => Setting::Y2012,
        years::Y2014 => Setting::Y2014,
        years::Y2015 => Setting::Y2015,
        years::Y2016 => Setting::Y2016,
        _ => Setting::Y2017,
    }
}

pub fn run(rt: &impl Print, form: &Form) -> io::Result<()> {
    let Some(call) = form.call() else {
        return rt.print(BadLine);
    };
    let bytes = form.all_bytes();
    let s = form.bytes(&bytes, List::Sheet);
    match (call, form.values(List::Ask)) {
        (Call::Check, [year]) => answer(rt, reader::check(s, *year)),
        (Call::Unfold, [year, numbers, elements, bytes]) => {
            let rooms = Rooms {
                numbers: *numbers,
                elements: *elements,
                bytes: *bytes,
            };
            reader::unfold(rt, s, *year, rooms)
        }
        (Call::Record, [year, number]) => answer(rt, reader::record(s, *year, *number)),
        (Call::Head, [year]) => answer(rt, reader::head(s, *year)),
        (Call::Unit, [year]) => answer(rt, reader::unit(s, *year)),
        (Call::Corners, [year]) => answer(rt, reader::corners(s, *year)),
        (Call::Write, [year, room]) => writer::write(rt, form, &bytes, *year, *room),
        (Call::Setting, [year]) => answer(rt, setting_of(*year)),
        (Call::Constant, [year]) => answer(rt, constant(*year)),
        (Call::Visibility, [flags, byte]) => answer(
            rt,
            visibility_of(low_byte(*flags), low_byte(*byte)),
        ),
        (Call::Value, [kind, scale, bits]) => answer(
            rt,
            value_of(low_byte(*kind), low_byte(*scale), *bits),
        ),
        (Call::Units, [flags, resolution, accuracy, unit]) => answer(
            rt,
            unit_of(
                low_byte(*flags),
                low_word(*resolution),
                low_byte(*accuracy),
                low_byte(*unit),
            ),
        ),
        (Call::Coordinate, [reference, by, bits]) => {
            let rest = writer::rest_of(form, &bytes);
            answer(
                rt,
                coordinate_of(&rest, low_word(*reference), dimension(*by), *bits),
            )
        }
        _ => rt.print(BadLine),
    }
}
