// The sheet: passport and descriptor, then the records.
ghost use Rattle.std.specs.Prelude.{◌≡◌, ◌≤◌, length};
ghost use Rattle.reading_check.specs.Sheets.{Headed, records_in};
ghost use Rattle.reading_check.specs.Tally.{shown, tally};
ghost use Rattle.layout.specs.Answers.Enums.{checked_of};
ghost use Rattle.layout.specs.Fields.{limit};
ghost use Rattle.layout.specs.Reading.Sheets.{sheet_walk, start};
ghost use Rattle.layout.specs.Walk.{answer, up_to};
ghost use Rattle.layout.specs.Writing.Tables.{joined, flatten_record};

use crate::records;
use crate::tally::Tally;
use fields::checks::refused;
use fields::{numbers, sums};
use layout::refusals::Reason;
use layout::{Refusal, Sizes, descriptor, passport, sheet};
use reading_head::check;

// A sheet whose head was let through, with what was counted of its records.
fn check_records(s: &[u8], counted: Result<Tally, Refusal>, year: u32) -> Result<Sizes, Refusal>
    requires { Headed s.now year × (counted ≡ shown (tally (joined flatten_record)) year (records_in s.now)) }
    ensures { result ≡ checked_of (answer (up_to year) (sheet_walk s.now)) }
{
    let t = counted?;
    if t.used < s.len() - sheet::START {
        return refused(Reason::LeftOver, sheet::START + t.used);
    }
    Ok(Sizes {
        sum: numbers::at::<u32>(s, passport::SUM),
        records: numbers::at::<u32>(s, descriptor::COUNT),
        numbers: t.numbers,
        elements: t.elements,
        bytes: t.bytes,
    })
}

// A sheet that is neither too long nor too short. Its records are walked before the checks on its head, since the sum, which the head
// states, is of all bytes: so the sheet is gone over once.
fn check_whole(s: &[u8], year: u32) -> Result<Sizes, Refusal>
    requires { (start ≤ length s.now) × (length s.now ≤ limit) }
    ensures { result ≡ checked_of (answer (up_to year) (sheet_walk s.now)) }
{
    let walked = records::walk(
        &s[sheet::START..],
        sheet::START,
        numbers::at::<u32>(s, descriptor::COUNT),
        year,
    );
    let counted = walked.counted;
    let sum = sums::low(check::head_sum(s) + walked.sum);
    check::check(s, sum, year)?;
    check_records(s, counted, year)
}

// Pass 1: the sizes of what unfolding the sheet gives, or the refusal.
pub fn check(s: &[u8], year: u32) -> Result<Sizes, Refusal>
    ensures { result ≡ checked_of (answer (up_to year) (sheet_walk s.now)) }
{
    check::size_checks(s)?;
    check_whole(s, year)
}
