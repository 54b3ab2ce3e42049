// What the head of an accepted sheet answers: the lengths of its texts, its scale and which text fields are clean, its unit, its plane corners.
// (01, Passport; 02, 6)
ghost use Rattle.std.specs.Prelude.{◌≡◌, ◌+◌, ◌≤◌, length, take, drop};
ghost use Rattle.fields.specs.Texts.{text_at};
ghost use Rattle.layout.specs.Answers.Corners.{corner_bits, plane_corners};
ghost use Rattle.layout.specs.Answers.Enums.{head_at};
ghost use Rattle.layout.specs.Answers.Units.{sheet_unit};
ghost use Rattle.layout.specs.Fields.Passport;
ghost use Rattle.layout.specs.Reading.Sheets.{sheet_walk};
ghost use Rattle.layout.specs.Sheet.{Sheet};
ghost use Rattle.layout.specs.Walk.{outcome, ends};
ghost use Rattle.reading_head.specs.Read.{Read};

use fields::{numbers, rests, texts};
use layout::{Corners, HeadAt, PlaneCorners, SheetUnit, TextAt, descriptor, passport, rest};
use meanings::{corners, units};

// What is answered of the text field of n bytes at p.
fn text_in(s: &[u8], p: usize, n: usize) -> TextAt
    requires { p + n ≤ length s.now }
    ensures { result ≡ text_at (take n (drop p s.now)) }
{
    texts::text_at(numbers::part(s, p, n))
}

// The lengths of the four texts, the scale, and which text fields are clean.
pub fn head_in(s: &[u8]) -> HeadAt
    requires { Read s.now }
    ensures { (t : Sheet) → outcome (sheet_walk s.now) ≡ ends t → result ≡ head_at t.head t.tails }
{
    let date = text_in(s, passport::DATE, passport::DATE_WIDTH);
    let designation = text_in(s, passport::DESIGNATION, passport::DESIGNATION_WIDTH);
    let scale = numbers::at::<u32>(s, passport::SCALE);
    let title = text_in(s, passport::TITLE, passport::TITLE_WIDTH);
    let designation2 = text_in(s, descriptor::DESIGNATION, descriptor::DESIGNATION_WIDTH);
    HeadAt {
        date,
        designation,
        scale,
        title,
        designation2,
    }
}

pub fn unit_in(s: &[u8]) -> SheetUnit
    requires { Read s.now }
    ensures { (t : Sheet) → outcome (sheet_walk s.now) ≡ ends t → result ≡ sheet_unit t.head }
{
    let b = rests::unit_bytes(numbers::part(s, passport::REST, passport::REST_WIDTH));
    units::unit_of(b.flags, b.resolution, b.accuracy, b.unit)
}

// The stored bits of the corners, from the same bytes.
fn rest_corners(r: &[u8]) -> PlaneCorners<u64>
    requires { (Passport.rest).width ≤ length r.now }
    ensures { result ≡ corner_bits r.now }
{
    PlaneCorners {
        sw_x: numbers::at::<u64>(r, rest::SW_X),
        sw_y: numbers::at::<u64>(r, rest::SW_Y),
        nw_x: numbers::at::<u64>(r, rest::NW_X),
        nw_y: numbers::at::<u64>(r, rest::NW_Y),
        ne_x: numbers::at::<u64>(r, rest::NE_X),
        ne_y: numbers::at::<u64>(r, rest::NE_Y),
        se_x: numbers::at::<u64>(r, rest::SE_X),
        se_y: numbers::at::<u64>(r, rest::SE_Y),
    }
}

pub fn corners_in(s: &[u8]) -> Corners
    requires { Read s.now }
    ensures { (t : Sheet) → outcome (sheet_walk s.now) ≡ ends t → result ≡ plane_corners t.head }
{
    let bits = rest_corners(numbers::part(s, passport::REST, passport::REST_WIDTH));
    corners::corners_of(bits)
}
