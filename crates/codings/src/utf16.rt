// The two calls: text of a coding into UTF-16, and back. A lent slice is written to only once it is known that all of the text is turned and
// fits.
ghost use Rattle.std.specs.Prelude.{◌≡◌, length};
ghost use Rattle.layout.specs.Answers.Calls.{lent};
ghost use Rattle.layout.specs.Answers.Enums.{written_of};
ghost use Rattle.layout.specs.Answers.Lent.{the_turned};
ghost use Rattle.layout.specs.Codings.Turning.{to_utf16, from_utf16};

use crate::bytes::Bytes;
use crate::characters::Characters;
use crate::way::turn_text;
use layout::Refusal;

// Turns a text into UTF-16, one unit a byte. The coding is 0 for DOS, 1 for Windows, 2 for KOI-8, as passport byte 97 has it: a number,
// since C calls this.
pub fn to_utf16(coding: u32, text: &[u8], units: &mut [u16]) -> Result<usize, Refusal>
    ensures answers { result ≡ written_of (to_utf16 coding text.now (length units.old)) }
    ensures turned { units.new ≡ lent the_turned (to_utf16 coding text.now (length units.old))
        units.old }
{
    turn_text::<Characters>(coding, text, units)
}

// Turns UTF-16 into a text, one byte a unit.
pub fn from_utf16(coding: u32, units: &[u16], text: &mut [u8]) -> Result<usize, Refusal>
    ensures answers { result ≡ written_of (from_utf16 coding units.now (length text.old)) }
    ensures turned { text.new ≡ lent the_turned (from_utf16 coding units.now (length text.old))
        text.old }
{
    turn_text::<Bytes>(coding, units, text)
}
