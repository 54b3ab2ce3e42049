// A code index: built from a sheet, checked, read, and asked for the records of a class code; and the same records from the sheet itself.
ghost use Rattle.std.specs.Prelude.{◌≡◌, length};
ghost use Rattle.layout.specs.Answers.Calls.{roomed, lent};
ghost use Rattle.layout.specs.Answers.Enums.{written_of, indexed_of};
ghost use Rattle.layout.specs.Answers.Lent.{the_given};
ghost use Rattle.layout.specs.Answers.Structs.{written_row, index_row};
ghost use Rattle.layout.specs.Index.Reading.{file_kind, entries_in};
ghost use Rattle.layout.specs.Index.Selecting.{index_of, selected, picked, entry_rows};

use crate::rows::{Answered, row_of};
use index::{files, sheets};
use layout::structs::{SxfIndex, SxfWritten};
use layout::{IndexSizes, Refusal};

#[unsafe(no_mangle)]
pub extern "C" fn sxf_index_build(sheet: &[u8], year: u32, index: &mut [u8]) -> SxfWritten
    ensures answers { result ≡ written_row (written_of (roomed (length index.old) (index_of year sheet.now))) }
    ensures written { index.new ≡ lent the_given (roomed (length index.old) (index_of year sheet.now))
        index.old }
{
    row_of(sheets::build_by_year(sheet, year, index))
}

#[tactic(auto, unfolding(layout::specs::Answers::Structs::index_row))]
impl Answered for IndexSizes {
    type Row = SxfIndex;

    ghost as_row = { index_row };

    fn given(self) -> SxfIndex {
        SxfIndex {
            number: 0,
            place: 0,
            year: 0,
            entries: self.entries as u64,
            blocks: self.blocks as u64,
        }
    }

    fn refused(r: Refusal) -> SxfIndex {
        SxfIndex {
            number: r.reason.number() as u64,
            place: r.place as u64,
            year: r.year as u64,
            entries: 0,
            blocks: 0,
        }
    }
}

#[unsafe(no_mangle)]
pub extern "C" fn sxf_index_check(index: &[u8]) -> SxfIndex
    ensures { result ≡ index_row (indexed_of (file_kind index.now) (entries_in index.now)) }
{
    row_of(files::check(index))
}

#[unsafe(no_mangle)]
pub extern "C" fn sxf_index_read(index: &[u8], entries: &mut [u64]) -> SxfWritten
    ensures answers { result ≡ written_row (written_of (roomed (length entries.old) (entry_rows index.now))) }
    ensures written { entries.new ≡ lent the_given (roomed (length entries.old) (entry_rows index.now))
        entries.old }
{
    row_of(files::read(index, entries))
}

#[unsafe(no_mangle)]
pub extern "C" fn sxf_index_select(index: &[u8], code: u32, picks: &mut [u64]) -> SxfWritten
    ensures answers { result ≡ written_row (written_of (roomed (length picks.old) (selected code index.now))) }
    ensures written { picks.new ≡ lent the_given (roomed (length picks.old) (selected code index.now))
        picks.old }
{
    row_of(files::select(index, code, picks))
}

#[unsafe(no_mangle)]
pub extern "C" fn sxf_select(sheet: &[u8], year: u32, code: u32, picks: &mut [u64]) -> SxfWritten
    ensures answers { result ≡ written_row (written_of (roomed (length picks.old) (picked year sheet.now code))) }
    ensures written { picks.new ≡ lent the_given (roomed (length picks.old) (picked year sheet.now code))
        picks.old }
{
    row_of(sheets::select_by_year(sheet, year, code, picks))
}
