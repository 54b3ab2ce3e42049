// The codings of one-byte text.
ghost use Rattle.codings.specs.Numbers.{Names};

use fields::checks::refused;
use layout::Refusal;
use layout::codings::{DOS, KOI8, WINDOWS};
use layout::refusals::Reason;

// A coding, by the number of passport byte 97: code page 866, code page 1251, or KOI8-R.
#[derive(Clone, Copy)]
pub enum Coding {
    Dos,
    Windows,
    Koi8,
}

// "16 for any other coding".
impl TryFrom<u32> for Coding {
    type Error = Refusal;

    ghost try_from_gives = { Names };

    fn try_from(number: u32) -> Result<Self, Refusal> {
        match number {
            DOS => Ok(Coding::Dos),
            WINDOWS => Ok(Coding::Windows),
            KOI8 => Ok(Coding::Koi8),
            _ => refused(Reason::Ask, 0),
        }
    }
}
