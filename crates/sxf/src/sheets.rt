// A sheet is checked, or unfolded into three lent slices, at a year.
ghost use Rattle.std.specs.Prelude.{◌≡◌};
ghost use Rattle.layout.specs.Answers.Calls.{reading, roomy, unfolded, lent};
ghost use Rattle.layout.specs.Answers.Enums.{checked_of};
ghost use Rattle.layout.specs.Answers.Lent.{rooms, the_numbers, the_elements, the_bytes};
ghost use Rattle.layout.specs.Answers.Structs.{checked_row};

use crate::rows::{Answered, row_of};
use layout::structs::SxfChecked;
use layout::{Refusal, Sizes};
use reading::sheets;

#[tactic(auto, unfolding(layout::specs::Answers::Structs::checked_row))]
impl Answered for Sizes {
    type Row = SxfChecked;

    ghost as_row = { checked_row };

    fn given(self) -> SxfChecked {
        SxfChecked {
            number: 0,
            place: 0,
            year: 0,
            sum: self.sum as u64,
            records: self.records as u64,
            numbers: self.numbers as u64,
            elements: self.elements as u64,
            bytes: self.bytes as u64,
        }
    }

    fn refused(r: Refusal) -> SxfChecked {
        SxfChecked {
            number: r.reason.number() as u64,
            place: r.place as u64,
            year: r.year as u64,
            sum: 0,
            records: 0,
            numbers: 0,
            elements: 0,
            bytes: 0,
        }
    }
}

#[unsafe(no_mangle)]
pub extern "C" fn sxf_check(sheet: &[u8], year: u32) -> SxfChecked
    ensures { result ≡ checked_row (checked_of (reading year sheet.now)) }
{
    row_of(sheets::check_by_year(sheet, year))
}

#[unsafe(no_mangle)]
pub extern "C" fn sxf_unfold(
    sheet: &[u8],
    year: u32,
    table: &mut [u64],
    elements: &mut [u64],
    bytes: &mut [u8],
) -> SxfChecked
    ensures answers { result ≡ checked_row (checked_of (roomy year sheet.now (rooms table.old elements.old bytes.old))) }
    ensures numbers { table.new ≡ lent the_numbers (unfolded year sheet.now
        (rooms table.old elements.old bytes.old)) table.old }
    ensures pool { elements.new ≡ lent the_elements (unfolded year sheet.now
        (rooms table.old elements.old bytes.old)) elements.old }
    ensures texts { bytes.new ≡ lent the_bytes (unfolded year sheet.now
        (rooms table.old elements.old bytes.old)) bytes.old }
{
    row_of(sheets::unfold_by_year(sheet, year, table, elements, bytes))
}
