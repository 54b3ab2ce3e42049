// The eight plane corners. (01, Passport: "answered together as doubles, each with its stored bits")
ghost use Rattle.layout.specs.Answers.Corners.{corners_of};
ghost use Rattle.meanings.specs.Places.{eight};
ghost use Rattle.std.specs.Float.{binary64};
ghost use Rattle.std.specs.Float.Ieee.{nan_bits};
ghost use Rattle.std.specs.List.{position};
ghost use Rattle.std.specs.Prelude.{◌≡◌};

use layout::{Corners, PlaneCorners, passport};

// The bits of an infinity, and the weight of the sign.
const INFINITY: u64 = 0x7FF0000000000000;

const SIGN: u64 = 0x8000000000000000;

// The width of a corner in the passport.
const WIDTH: usize = 8;

// Whether the bits are a NaN's: all that lie above an infinity's, without the sign.
pub fn not_number(bits: u64) -> bool
    ensures { result ≡ nan_bits binary64 bits }
{
    INFINITY < bits % SIGN
}

// Which of the eight is the first that is no number.
fn first_none(b: PlaneCorners<u64>) -> Option<usize>
    ensures { result ≡ position (nan_bits binary64) (eight b) }
{
    [
        b.sw_x, b.sw_y, b.nw_x, b.nw_y, b.ne_x, b.ne_y, b.se_x, b.se_y,
    ]
    .iter()
    .position(|bits| not_number(*bits))
}

// The eight are written out: a map over PlaneCorners would have eight clauses in its contract to save these eight lines.
#[tactic(auto, using(crate::proofs::Laws::Places::at_first, crate::proofs::Laws::Places::as_doubles))]
pub fn corners_of(b: PlaneCorners<u64>) -> Corners
    ensures { result ≡ corners_of b }
{
    if let Some(i) = first_none(b) {
        return Corners::Bits(passport::SW_X + WIDTH * i, b);
    }
    Corners::Doubles(PlaneCorners {
        sw_x: f64::from_bits(b.sw_x),
        sw_y: f64::from_bits(b.sw_y),
        nw_x: f64::from_bits(b.nw_x),
        nw_y: f64::from_bits(b.nw_y),
        ne_x: f64::from_bits(b.ne_x),
        ne_y: f64::from_bits(b.ne_y),
        se_x: f64::from_bits(b.se_x),
        se_y: f64::from_bits(b.se_y),
    })
}
