// Checks: each is let through or refused, and `?` goes on to the next.
ghost use Rattle.std.specs.Prelude.{◌≡◌};
ghost use Rattle.fields.specs.Checks.{demanded, featured};
ghost use Rattle.layout.specs.Answers.Enums.{refusal};
ghost use Rattle.layout.specs.Bytes.{agree as agreeOf};

use layout::Refusal;
use layout::refusals::Reason;

// What is refused, at a place.
pub fn refused<T>(reason: Reason, place: usize) -> Result<T, Refusal>
    ensures { result ≡ Err (refusal reason place 0) }
{
    Err(Refusal {
        reason,
        place,
        year: 0,
    })
}

// A test that must hold, or the refusal is given at a place.
pub fn demand(ok: bool, reason: Reason, place: usize) -> Result<(), Refusal>
    ensures { result ≡ demanded ok reason place }
{
    if ok { Ok(()) } else { refused(reason, place) }
}

// A feature of the year `since`: where it is on, it is refused at an earlier setting.
pub fn feature(on: bool, since: u32, place: usize, year: u32) -> Result<(), Refusal>
    ensures { result ≡ featured on since place year }
{
    if on && year < since {
        return Err(Refusal {
            reason: Reason::TooNew,
            place,
            year: since,
        });
    }
    Ok(())
}

// Whether two tests have the same outcome, in the definition's word.
pub fn agree(a: bool, b: bool) -> bool
    ensures { result ≡ agreeOf a b }
{
    a == b
}
