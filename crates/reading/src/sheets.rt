// A sheet is checked, or unfolded into three lent slices.
ghost use Rattle.std.specs.Prelude.{◌≡◌, length};
ghost use Rattle.layout.specs.Answers.Calls.{reading, roomy, unfolded, lent};
ghost use Rattle.layout.specs.Answers.Enums.{checked_of};
ghost use Rattle.layout.specs.Answers.Lent.{rooms, the_numbers, the_elements, the_bytes};

use fields::checks::refused;
use layout::refusals::Reason;
use layout::{Refusal, Sizes, lent};
use meanings::setting::Setting;

// The sizes of what unfolding the sheet gives, or the refusal.
pub fn check(s: &[u8], setting: Setting) -> Result<Sizes, Refusal>
    ensures { result ≡ checked_of (reading setting.year s.now) }
{
    reading_check::sheets::check(s, setting.year())
}

// Checks a sheet at a year, for C has years (`sxf_check`). One that is none of the nine is refused first. (01, The refusals: "Order: setting, TOO LONG, ..")
pub fn check_by_year(s: &[u8], year: u32) -> Result<Sizes, Refusal>
    ensures { result ≡ checked_of (reading year s.now) }
{
    check(s, Setting::new(year)?)
}

// The record table of the sheet goes to the start of the three slices. Nothing is written before it is known that all of it fits.
pub fn unfold(
    s: &[u8],
    setting: Setting,
    table: &mut [u64],
    elements: &mut [u64],
    bytes: &mut [u8],
) -> Result<Sizes, Refusal>
    ensures answers { result ≡ checked_of (roomy setting.year s.now
        (rooms table.old elements.old bytes.old)) }
    ensures numbers { table.new ≡ lent the_numbers (unfolded setting.year s.now
        (rooms table.old elements.old bytes.old)) table.old }
    ensures pool { elements.new ≡ lent the_elements (unfolded setting.year s.now
        (rooms table.old elements.old bytes.old)) elements.old }
    ensures texts { bytes.new ≡ lent the_bytes (unfolded setting.year s.now
        (rooms table.old elements.old bytes.old)) bytes.old }
{
    let sizes = check(s, setting)?;
    if table.len() < sizes.numbers {
        return refused(Reason::Room, lent::TABLE);
    }
    if elements.len() < sizes.elements {
        return refused(Reason::Room, lent::ELEMENTS);
    }
    if bytes.len() < sizes.bytes {
        return refused(Reason::Room, lent::BYTES);
    }
    reading_fill::sheets::fill(s, table, elements, bytes);
    Ok(sizes)
}

// Unfolds a sheet at a year, for C has years (`sxf_unfold`).
pub fn unfold_by_year(
    s: &[u8],
    year: u32,
    table: &mut [u64],
    elements: &mut [u64],
    bytes: &mut [u8],
) -> Result<Sizes, Refusal>
    ensures answers { result ≡ checked_of (roomy year s.now (rooms table.old elements.old bytes.old)) }
    ensures numbers { table.new ≡ lent the_numbers (unfolded year s.now
        (rooms table.old elements.old bytes.old)) table.old }
    ensures pool { elements.new ≡ lent the_elements (unfolded year s.now
        (rooms table.old elements.old bytes.old)) elements.old }
    ensures texts { bytes.new ≡ lent the_bytes (unfolded year s.now
        (rooms table.old elements.old bytes.old)) bytes.old }
{
    let setting = Setting::new(year)?;
    unfold(s, setting, table, elements, bytes)
}
