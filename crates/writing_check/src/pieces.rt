// Pieces of a table that are taken one after another.
ghost use Rattle.writing_check.specs.Pieces.{MayTake, Took};

use crate::places::Places;
use layout::Refusal;

// Takes n pieces, up to the first that is refused.
pub fn take_all<F: Fn(Places) -> Result<Places, Refusal>>(
    n: u64,
    p: Places,
    take: F,
) -> Result<Places, Refusal>
    requires { MayTake (F.pre take) (F.post take) n p }
    ensures { Took (F.post take) n p result }
{
    let mut at = p;
    for _ in 0..n {
        at = take(at)?;
    }
    Ok(at)
}
