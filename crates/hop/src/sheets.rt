// Over a sheet, from header to header. No setting is asked for. Only the sheet's length, its two identifiers, its count of records, the headers and,
// for the frame, the code at 348 are looked at.
ghost use Rattle.std.specs.Prelude.{◌≡◌, ℕ, ◌≤◌, length};
ghost use Rattle.fields.specs.Checks.{checked};
ghost use Rattle.layout.specs.Answers.Enums.{hopped_of};
ghost use Rattle.layout.specs.Bytes.{number_in};
ghost use Rattle.layout.specs.Fields.Descriptor;
ghost use Rattle.layout.specs.Fields.{limit};
ghost use Rattle.layout.specs.Hop.{hop_from, start_checks, hop, frame};
ghost use Rattle.layout.specs.Reading.Sheets.{start};
ghost use Rattle.layout.specs.Walk.{answer, always};

use crate::headers::check_header;
use fields::headers::header_at;
use fields::numbers;
use layout::refusals::Reason;
use layout::{Hit, Hop, Refusal, descriptor, passport, sheet};
use reading_head::check::{fixed, size_checks};

// The checks on the sheet's size and its two identifiers.
#[tactic(auto, using(fields::proofs::Laws::Chain::checked_both), unfolding(layout::specs::Hop::start_checks))]
fn check_start(s: &[u8]) -> Result<(), Refusal>
    ensures { (y : ℕ) → result ≡ checked y 0 (start_checks s.now) }
{
    size_checks(s)?;
    fixed(
        s,
        passport::IDENTIFIER,
        passport::IDENTIFIER_IS,
        Reason::NotSxf,
    )?;
    fixed(
        s,
        descriptor::IDENTIFIER,
        descriptor::IDENTIFIER_IS,
        Reason::NotSxf,
    )
}

// The first record with a code, of a sheet whose start was let through.
fn hop_on(s: &[u8], code: u32) -> Result<Hop, Refusal>
    requires { (start ≤ length s.now) × (length s.now ≤ limit) }
    ensures { result ≡ hopped_of (answer always (hop_from code (number_in Descriptor.count s.now) 0 start s.now)) }
{
    let count = numbers::at::<u32>(s, descriptor::COUNT);
    let mut at: usize = sheet::START;
    for seen in 0..count {
        check_header(s, at)?;
        let h = header_at(s, at);
        let total = h.total as usize;
        if h.code == code {
            return Ok(Hop {
                hit: Some(Hit {
                    record: seen,
                    place: at,
                    total,
                }),
                looked: seen + 1,
            });
        }
        at += total;
    }
    Ok(Hop {
        hit: None,
        looked: count,
    })
}

// The first record with a wanted code.
pub fn first_with(s: &[u8], code: u32) -> Result<Hop, Refusal>
    ensures { result ≡ hopped_of (hop code s.now) }
{
    check_start(s)?;
    hop_on(s, code)
}

// The frame of the sheet: the first record whose code is the one that the passport states.
pub fn frame_of(s: &[u8]) -> Result<Hop, Refusal>
    ensures { result ≡ hopped_of (frame s.now) }
{
    check_start(s)?;
    hop_on(s, numbers::at::<u32>(s, passport::FRAME))
}
