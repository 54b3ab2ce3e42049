// The head of a sheet, its unit and its plane corners, at a year.
ghost use Rattle.std.specs.Prelude.{◌≡◌};
ghost use Rattle.layout.specs.Answers.Calls.{reading};
ghost use Rattle.layout.specs.Answers.Enums.{headed_of, unit_in, corners_in};
ghost use Rattle.layout.specs.Answers.Structs.{head_row, unit_row, corners_row, bits_row, bits_of};
ghost use Rattle.sxf.specs.Doubles.{Numbers, Defined};

use crate::rows::{Answered, row_of};
use crate::units::unit_known;
use layout::structs::{SxfCorners, SxfHead, SxfUnit};
use layout::{Corners, HeadAt, PlaneCorners, Refusal, SheetUnit};
use reading::heads;

#[tactic(auto, unfolding(layout::specs::Answers::Structs::head_row))]
impl Answered for HeadAt {
    type Row = SxfHead;

    ghost as_row = { head_row };

    fn given(self) -> SxfHead {
        SxfHead {
            number: 0,
            place: 0,
            year: 0,
            date: self.date.length as u64,
            designation: self.designation.length as u64,
            title: self.title.length as u64,
            designation2: self.designation2.length as u64,
            scale: self.scale as u64,
            date_clean: u64::from(self.date.clean),
            designation_clean: u64::from(self.designation.clean),
            title_clean: u64::from(self.title.clean),
            designation2_clean: u64::from(self.designation2.clean),
        }
    }

    fn refused(r: Refusal) -> SxfHead {
        SxfHead {
            number: r.reason.number() as u64,
            place: r.place as u64,
            year: r.year as u64,
            date: 0,
            designation: 0,
            title: 0,
            designation2: 0,
            scale: 0,
            date_clean: 0,
            designation_clean: 0,
            title_clean: 0,
            designation2_clean: 0,
        }
    }
}

#[unsafe(no_mangle)]
pub extern "C" fn sxf_head_of(sheet: &[u8], year: u32) -> SxfHead
    ensures { result ≡ head_row (headed_of (reading year sheet.now)) }
{
    row_of(heads::head_by_year(sheet, year))
}

#[tactic(auto, unfolding(layout::specs::Answers::Structs::unit_row))]
impl Answered for SheetUnit {
    type Row = SxfUnit;

    ghost as_row = { unit_row };

    fn given(self) -> SxfUnit {
        unit_known(self)
    }

    fn refused(r: Refusal) -> SxfUnit {
        SxfUnit {
            number: r.reason.number() as u64,
            place: r.place as u64,
            year: r.year as u64,
            unit: 0,
            byte: 0,
        }
    }
}

#[unsafe(no_mangle)]
pub extern "C" fn sxf_unit_of(sheet: &[u8], year: u32) -> SxfUnit
    ensures { result ≡ unit_row (unit_in (reading year sheet.now)) }
{
    row_of(heads::unit_by_year(sheet, year))
}

// The bits of eight doubles, which are undefined at a NaN. A map over corners would say eight things in its contract, and is no plainer.
fn bits_of(d: PlaneCorners<f64>) -> PlaneCorners<u64>
    requires { Numbers d }
    ensures { result ≡ bits_of d }
{
    PlaneCorners {
        sw_x: f64::to_bits(d.sw_x),
        sw_y: f64::to_bits(d.sw_y),
        nw_x: f64::to_bits(d.nw_x),
        nw_y: f64::to_bits(d.nw_y),
        ne_x: f64::to_bits(d.ne_x),
        ne_y: f64::to_bits(d.ne_y),
        se_x: f64::to_bits(d.se_x),
        se_y: f64::to_bits(d.se_y),
    }
}

fn bits_row(nan_at: usize, b: PlaneCorners<u64>) -> SxfCorners
    ensures { result ≡ bits_row nan_at b }
{
    SxfCorners {
        number: 0,
        place: 0,
        year: 0,
        nan_at: nan_at as u64,
        sw_x: b.sw_x,
        sw_y: b.sw_y,
        nw_x: b.nw_x,
        nw_y: b.nw_y,
        ne_x: b.ne_x,
        ne_y: b.ne_y,
        se_x: b.se_x,
        se_y: b.se_y,
    }
}

#[tactic(auto, unfolding(layout::specs::Answers::Structs::corners_row, crate::specs::Doubles::Defined))]
impl Answered for Corners {
    type Row = SxfCorners;

    ghost as_row = { corners_row };

    ghost defined = { Defined };

    fn given(self) -> SxfCorners {
        match self {
            Corners::Doubles(d) => bits_row(0, bits_of(d)),
            Corners::Bits(place, b) => bits_row(place, b),
        }
    }

    fn refused(r: Refusal) -> SxfCorners {
        SxfCorners {
            number: r.reason.number() as u64,
            place: r.place as u64,
            year: r.year as u64,
            nan_at: 0,
            sw_x: 0,
            sw_y: 0,
            nw_x: 0,
            nw_y: 0,
            ne_x: 0,
            ne_y: 0,
            se_x: 0,
            se_y: 0,
        }
    }
}

#[unsafe(no_mangle)]
pub extern "C" fn sxf_corners_of(sheet: &[u8], year: u32) -> SxfCorners
    ensures { result ≡ corners_row (corners_in (reading year sheet.now)) }
{
    row_of(heads::corners_by_year(sheet, year))
}
