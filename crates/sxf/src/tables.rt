// A sheet is written from a head and a record table, for a year.
ghost use Rattle.std.specs.Prelude.{◌≡◌, length};
ghost use Rattle.layout.specs.Answers.Lent.{head_of, the_sheet};
ghost use Rattle.layout.specs.Answers.Calls.{written, lent};
ghost use Rattle.layout.specs.Answers.Enums.{written_of};
ghost use Rattle.layout.specs.Writing.Tables.{table as table_of};
ghost use Rattle.layout.specs.Answers.Structs.{written_row};

use crate::rows::row_of;
use layout::structs::SxfWritten;
use layout::{descriptor, passport};
use writing::sheets;

#[unsafe(no_mangle)]
pub extern "C" fn sxf_write(
    year: u32,
    date: &[u8],
    designation: &[u8],
    scale: u32,
    title: &[u8],
    rest: &[u8; passport::REST_WIDTH],
    designation2: &[u8],
    carried: &[u8; descriptor::CARRIED_WIDTH],
    table: &[u64],
    elements: &[u64],
    bytes: &[u8],
    out: &mut [u8],
) -> SxfWritten
    ensures answers { result ≡ written_row (written_of (written year
        (head_of date.now designation.now scale title.now rest.now designation2.now
        carried.now)
        (table_of table.now elements.now bytes.now) (length out.old))) }
    ensures sheet { out.new ≡ lent the_sheet (written year
        (head_of date.now designation.now scale title.now rest.now designation2.now
        carried.now)
        (table_of table.now elements.now bytes.now) (length out.old)) out.old }
{
    row_of(sheets::write_by_year(
        date,
        designation,
        scale,
        title,
        rest,
        designation2,
        carried,
        table,
        elements,
        bytes,
        year,
        out,
    ))
}
