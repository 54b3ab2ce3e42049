// What is asked of a header before its code is looked at.
ghost use Rattle.std.specs.Prelude.{◌≡◌, ℕ, ◌≤◌, ◌<◌, ◌^◌, length, drop};
ghost use Rattle.fields.specs.Checks.{checked};
ghost use Rattle.layout.specs.Hop.{hop_checks};

use fields::checks::demand;
use fields::headers::{header_at, total_checks};
use layout::refusals::Reason;
use layout::{Refusal, header};

// The checks on the header of the record that starts at a place.
#[tactic(auto, unfolding(layout::specs::Hop::hop_checks))]
pub fn check_header(s: &[u8], at: usize) -> Result<(), Refusal>
    requires { (at ≤ length s.now) × (length s.now < 2 ^ 32) }
    ensures { (y : ℕ) → result ≡ checked y at (hop_checks (drop at s.now)) }
{
    let left = s.len() - at;
    demand(header::SIZE <= left, Reason::Short, at)?;
    total_checks(header_at(s, at), at, left)
}
