// The writer's rules on the head, by place in the sheet.
ghost use Rattle.std.specs.Prelude.{◌≡◌, ℕ, ◌≤◌, length};
ghost use Rattle.fields.specs.Checks.{checked, demanded};
ghost use Rattle.writing_head.specs.Heads.{head_rules, head_in};
ghost use Rattle.layout.specs.Bytes.{field};
ghost use Rattle.layout.specs.Fields.Descriptor;
ghost use Rattle.layout.specs.Fields.Passport;
ghost use Rattle.layout.specs.Refusals.{TEXT};
ghost use Rattle.layout.specs.Shared.Texts.{is_text};

use crate::texts::HeadTexts;
use fields::checks::demand;
use fields::{flags, texts};
use layout::refusals::Reason;
use layout::{Refusal, descriptor, passport};

// Whether a field of so many bytes can hold the text: it is at least one byte shorter, and has no zero.
fn is_text(text: &[u8], width: usize) -> bool
    ensures { (place : ℕ) → result ≡ is_text (field place width) text.now }
{
    text.len() < width && texts::text_length(text) == text.len()
}

// A text that does not fit is refused and never shortened. (01, The record table: "TEXT for a text too long or with a zero")
fn text_fits(text: &[u8], place: usize, width: usize) -> Result<(), Refusal>
    ensures { result ≡ demanded (is_text (field place width) text.now) TEXT place }
{
    demand(is_text(text, width), Reason::Text, place)
}

#[tactic(auto, using(fields::proofs::Laws::Chain::checked_both), unfolding(layout::specs::Writing::Sheets::title_rules))]
pub fn check(t: HeadTexts, year: u32) -> Result<(), Refusal>
    requires { ((Passport.rest).width ≤ length t.rest.now) × ((Descriptor.carried).width ≤ length t.carried.now) }
    ensures { (scale : ℕ) → result ≡ checked year 0 (head_rules (head_in scale t.entry)) }
{
    text_fits(t.date, passport::DATE, passport::DATE_WIDTH)?;
    text_fits(
        t.designation,
        passport::DESIGNATION,
        passport::DESIGNATION_WIDTH,
    )?;
    text_fits(t.title, passport::TITLE, passport::TITLE_WIDTH)?;
    flags::rest_checks(t.rest, year)?;
    text_fits(
        t.designation2,
        descriptor::DESIGNATION,
        descriptor::DESIGNATION_WIDTH,
    )?;
    flags::carried_checks(t.carried, year)
}
