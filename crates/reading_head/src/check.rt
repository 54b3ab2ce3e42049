// The reader's checks on a sheet's length, and on passport and descriptor by rising place.
ghost use Rattle.std.specs.Prelude.{◌≡◌, ℕ, ◌+◌, ◌*◌, ◌≤◌, eqb, length, take, drop};
ghost use Rattle.fields.specs.Checks.{checked, demanded};
ghost use Rattle.layout.specs.Bytes.{number, total};
ghost use Rattle.layout.specs.Fields.{limit};
ghost use Rattle.layout.specs.Reading.Sheets.{whole_sum, sum_of, size_checks, passport_checks, start};
ghost use Rattle.layout.specs.Refusals.{TEXT};
ghost use Rattle.layout.specs.Shared.Texts.{is_text_field};
ghost use Rattle.reading_head.specs.Checks.{head_checks, all_descriptor_checks};

use fields::checks::demand;
use fields::{flags, numbers, sums, texts};
use layout::refusals::Reason;
use layout::{Refusal, descriptor, passport, sheet};

// The checks on a sheet's length.
#[tactic(auto, unfolding(layout::specs::Reading::Sheets::size_checks))]
pub fn size_checks(s: &[u8]) -> Result<(), Refusal>
    ensures { (y : ℕ) → result ≡ checked y 0 (size_checks s.now) }
{
    demand(s.len() <= sheet::LIMIT, Reason::TooLong, 0)?;
    demand(sheet::START <= s.len(), Reason::Short, 0)
}

// The four bytes at p hold a fixed value, or the refusal is given there.
pub fn fixed(s: &[u8], p: usize, value: u32, reason: Reason) -> Result<(), Refusal>
    requires { p + 4 ≤ length s.now }
    ensures { result ≡ demanded (eqb (number 4 (drop p s.now)) value) reason p }
{
    demand(numbers::at::<u32>(s, p) == value, reason, p)
}

// The n bytes at p are a text field, or TEXT is given there.
fn text(s: &[u8], p: usize, n: usize) -> Result<(), Refusal>
    requires { p + n ≤ length s.now }
    ensures { result ≡ demanded (is_text_field (take n (drop p s.now))) TEXT p }
{
    demand(
        texts::is_text_field(numbers::part(s, p, n)),
        Reason::Text,
        p,
    )
}

// The sum of passport and descriptor, without the four bytes that state the sum.
pub fn head_sum(s: &[u8]) -> u64
    requires { (start ≤ length s.now) × (length s.now ≤ limit) }
    ensures { (result + total (drop start s.now) ≡ whole_sum s.now) × (result ≤ 255 * start) }
{
    let front = sums::sum_of(numbers::part(s, 0, passport::SUM));
    let back = sums::sum_of(numbers::part(s, passport::AFTER_SUM, sheet::START_AFTER_SUM));
    front + back
}

#[tactic(auto, unfolding(layout::specs::Reading::Sheets::passport_checks))]
fn check_passport(s: &[u8], sum: u32) -> Result<(), Refusal>
    requires { (start ≤ length s.now) × (sum ≡ sum_of s.now) }
    ensures { (y : ℕ) → result ≡ checked y 0 (passport_checks s.now) }
{
    fixed(
        s,
        passport::IDENTIFIER,
        passport::IDENTIFIER_IS,
        Reason::NotSxf,
    )?;
    fixed(
        s,
        passport::OWN_LENGTH,
        passport::OWN_LENGTH_IS,
        Reason::Edition,
    )?;
    fixed(s, passport::EDITION, passport::EDITION_IS, Reason::Edition)?;
    fixed(s, passport::SUM, sum, Reason::Sum)?;
    text(s, passport::DATE, passport::DATE_WIDTH)?;
    text(s, passport::DESIGNATION, passport::DESIGNATION_WIDTH)?;
    text(s, passport::TITLE, passport::TITLE_WIDTH)
}

#[tactic(auto, using(fields::proofs::Laws::Chain::checked_both), unfolding(layout::specs::Reading::Sheets::descriptor_checks, layout::specs::Reading::Sheets::reserved_checks))]
fn check_descriptor(s: &[u8], year: u32) -> Result<(), Refusal>
    requires { start ≤ length s.now }
    ensures { result ≡ checked year 0 (all_descriptor_checks s.now) }
{
    fixed(
        s,
        descriptor::IDENTIFIER,
        descriptor::IDENTIFIER_IS,
        Reason::NotSxf,
    )?;
    fixed(
        s,
        descriptor::OWN_LENGTH,
        descriptor::OWN_LENGTH_IS,
        Reason::Edition,
    )?;
    text(s, descriptor::DESIGNATION, descriptor::DESIGNATION_WIDTH)?;
    flags::carried_checks(
        numbers::part(s, descriptor::CARRIED, descriptor::CARRIED_WIDTH),
        year,
    )?;
    demand(
        texts::all_zero(numbers::part(s, descriptor::RESERVED, descriptor::RESERVED_WIDTH)),
        Reason::Reserved,
        descriptor::RESERVED,
    )
}

// All checks on passport and descriptor of a sheet with that sum.
#[tactic(auto, using(fields::proofs::Laws::Chain::checked_both))]
pub fn check(s: &[u8], sum: u32, year: u32) -> Result<(), Refusal>
    requires { (start ≤ length s.now) × (sum ≡ sum_of s.now) }
    ensures { result ≡ checked year 0 (head_checks s.now) }
{
    check_passport(s, sum)?;
    flags::rest_checks(numbers::part(s, passport::REST, passport::REST_WIDTH), year)?;
    check_descriptor(s, year)
}
