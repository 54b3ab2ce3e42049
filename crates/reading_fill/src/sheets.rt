// The reader's second pass, over a sheet that the first has accepted.
ghost use Rattle.std.specs.Prelude.{length};
ghost use Rattle.reading_fill.specs.Sheets.{sheet_records, Accepted, Filled};
ghost use Rattle.layout.specs.Writing.Tables.{flatten};

use crate::filler::Filler;
use fields::cursors::Cursor;
use fields::numbers;
use layout::{descriptor, sheet};

// The record table and the two pools of an accepted sheet, each to the start of a slice that is long enough for it.
pub fn fill(s: &[u8], table: &mut [u64], elements: &mut [u64], bytes: &mut [u8])
    requires { Accepted s.now (length table.old) (length elements.old) (length bytes.old) }
    ensures { Filled (flatten (sheet_records s.now)) table.old elements.old bytes.old table.new
        elements.new bytes.new }
{
    let n = numbers::at::<u32>(s, descriptor::COUNT) as usize;
    let start = Cursor {
        place: sheet::START,
        numbers: 0,
        elements: 0,
        bytes: 0,
    };
    let mut filler = Filler {
        numbers: table,
        elements,
        bytes,
    };
    filler.fill_records(s, n, start);
}
