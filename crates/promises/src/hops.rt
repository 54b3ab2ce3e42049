// Hopping as programs, so that nothing is asked of what is lent but its type. (02, request 5: "On an accepted sheet the answer equals the one from the
// full reading.")
ghost use Rattle.std.specs.Prelude.{◌≡◌, ℕ};
ghost use Rattle.layout.specs.Answers.Calls.{reading};
ghost use Rattle.layout.specs.Hop.{first_with, frame_code};
ghost use Rattle.layout.specs.Reading.Sheets.{start};
ghost use Rattle.layout.specs.Sheet.{Sheet};
ghost use Rattle.layout.specs.Walk.{given};

use crate::lent;
use hop::sheets;
use layout::{Hop, Refusal};

// The first record with a code, of a sheet that is accepted at some setting.
pub fn first_kept(s: &[u8], code: u32) -> Result<Hop, Refusal>
    ensures { (year : ℕ) (t : Sheet) → reading year s.now ≡ given t → result ≡ Ok (first_with code 0 start t.records) }
{
    lent::bytes(s);
    sheets::first_with(s, code)
}

// Its frame, whose code is in the head of the reading.
pub fn frame_kept(s: &[u8]) -> Result<Hop, Refusal>
    ensures { (year : ℕ) (t : Sheet) → reading year s.now ≡ given t
        → result ≡ Ok (first_with (frame_code t.head) 0 start t.records) }
{
    lent::bytes(s);
    sheets::frame_of(s)
}
