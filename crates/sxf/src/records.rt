// A record is asked for by its number, at a year.
ghost use Rattle.std.specs.Prelude.{◌≡◌};
ghost use Rattle.layout.specs.Answers.Calls.{asked};
ghost use Rattle.layout.specs.Answers.Enums.{found_of};
ghost use Rattle.layout.specs.Answers.Structs.{record_row};

use crate::rows::{Answered, row_of};
use layout::structs::SxfRecord;
use layout::{RecordAt, Refusal};
use reading::records;

#[tactic(auto, unfolding(layout::specs::Answers::Structs::record_row))]
impl Answered for RecordAt {
    type Row = SxfRecord;

    ghost as_row = { record_row };

    fn given(self) -> SxfRecord {
        SxfRecord {
            number: 0,
            place: 0,
            year: 0,
            at: self.place as u64,
            total: self.total as u64,
            code: self.code as u64,
            in_group: self.in_group as u64,
            group: self.group as u64,
            reference: self.reference as u64,
            generalisation: self.generalisation as u64,
            word: self.word as u64,
            parts: self.parts as u64,
            items: self.items as u64,
            mark: self.mark as u64,
            points: self.points as u64,
        }
    }

    fn refused(r: Refusal) -> SxfRecord {
        SxfRecord {
            number: r.reason.number() as u64,
            place: r.place as u64,
            year: r.year as u64,
            at: 0,
            total: 0,
            code: 0,
            in_group: 0,
            group: 0,
            reference: 0,
            generalisation: 0,
            word: 0,
            parts: 0,
            items: 0,
            mark: 0,
            points: 0,
        }
    }
}

#[unsafe(no_mangle)]
pub extern "C" fn sxf_record_at(sheet: &[u8], year: u32, record: u64) -> SxfRecord
    ensures { result ≡ record_row (found_of (asked year sheet.now «record»)) }
{
    row_of(records::record_by_year(sheet, year, record))
}
