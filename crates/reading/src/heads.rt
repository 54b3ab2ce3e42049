// The head of a sheet, its unit, and its plane corners. (01, Passport)
ghost use Rattle.std.specs.Prelude.{◌≡◌};
ghost use Rattle.layout.specs.Answers.Calls.{reading};
ghost use Rattle.layout.specs.Answers.Enums.{headed_of, unit_in, corners_in};

use crate::sheets::check;
use layout::{Corners, HeadAt, Refusal, SheetUnit};
use meanings::setting::Setting;
use reading_head::answers;

// The lengths of the four texts and the scale: with the bytes at their places they are what the writer takes.
pub fn head_of(s: &[u8], setting: Setting) -> Result<HeadAt, Refusal>
    ensures { result ≡ headed_of (reading setting.year s.now) }
{
    check(s, setting)?;
    Ok(answers::head_in(s))
}

pub fn unit_of(s: &[u8], setting: Setting) -> Result<SheetUnit, Refusal>
    ensures { result ≡ unit_in (reading setting.year s.now) }
{
    check(s, setting)?;
    Ok(answers::unit_in(s))
}

pub fn corners_of(s: &[u8], setting: Setting) -> Result<Corners, Refusal>
    ensures { result ≡ corners_in (reading setting.year s.now) }
{
    check(s, setting)?;
    Ok(answers::corners_in(s))
}

// The three calls above, at a year, for C has years (`sxf_head_of`, `sxf_unit_of`, `sxf_corners_of`).
pub fn head_by_year(s: &[u8], year: u32) -> Result<HeadAt, Refusal>
    ensures { result ≡ headed_of (reading year s.now) }
{
    let setting = Setting::new(year)?;
    head_of(s, setting)
}

pub fn unit_by_year(s: &[u8], year: u32) -> Result<SheetUnit, Refusal>
    ensures { result ≡ unit_in (reading year s.now) }
{
    let setting = Setting::new(year)?;
    unit_of(s, setting)
}

pub fn corners_by_year(s: &[u8], year: u32) -> Result<Corners, Refusal>
    ensures { result ≡ corners_in (reading year s.now) }
{
    let setting = Setting::new(year)?;
    corners_of(s, setting)
}
