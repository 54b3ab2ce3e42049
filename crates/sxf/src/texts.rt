// Text of three codings is turned into UTF-16, and back.
ghost use Rattle.std.specs.Prelude.{◌≡◌, length};
ghost use Rattle.layout.specs.Answers.Calls.{lent};
ghost use Rattle.layout.specs.Answers.Enums.{written_of};
ghost use Rattle.layout.specs.Answers.Lent.{the_turned};
ghost use Rattle.layout.specs.Answers.Structs.{written_row};
ghost use Rattle.layout.specs.Codings.Turning.{to_utf16, from_utf16};

use crate::rows::row_of;
use codings::utf16;
use layout::structs::SxfWritten;

#[unsafe(no_mangle)]
pub extern "C" fn sxf_to_utf16(coding: u32, text: &[u8], units: &mut [u16]) -> SxfWritten
    ensures answers { result ≡ written_row (written_of (to_utf16 coding text.now (length units.old))) }
    ensures turned { units.new ≡ lent the_turned (to_utf16 coding text.now (length units.old))
        units.old }
{
    row_of(utf16::to_utf16(coding, text, units))
}

#[unsafe(no_mangle)]
pub extern "C" fn sxf_from_utf16(coding: u32, units: &[u16], text: &mut [u8]) -> SxfWritten
    ensures answers { result ≡ written_row (written_of (from_utf16 coding units.now (length text.old))) }
    ensures turned { text.new ≡ lent the_turned (from_utf16 coding units.now (length text.old))
        text.old }
{
    row_of(utf16::from_utf16(coding, units, text))
}
