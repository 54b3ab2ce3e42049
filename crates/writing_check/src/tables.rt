// The record table, row by row to its end.
ghost use Rattle.std.specs.Prelude.{◌≡◌};
ghost use Rattle.layout.specs.Walk.{answer, up_to};
ghost use Rattle.layout.specs.Writing.Rows.{rows_walk};
ghost use Rattle.writing_check.specs.Places.{lists};
ghost use Rattle.writing_check.specs.Tables.{rows_of};

use crate::places::Places;
use crate::record_table::RecordTable;
use crate::rows;
use fields::checks::refused;
use layout::Refusal;
use layout::refusals::Reason;

// How many bytes the records have together, at most one more than the limit; and how many records there are.
#[derive(Clone, Copy)]
pub struct Totals {
    pub length: usize,
    pub records: usize,
}

// Pass 1: the totals of a table and its two pools, or the refusal.
pub fn check(t: &RecordTable, year: u32) -> Result<Totals, Refusal>
    ensures { result ≡ rows_of (answer (up_to year) (rows_walk (lists t.now))) }
{
    let mut p = Places {
        number: 0,
        element: 0,
        byte: 0,
        length: 0,
    };
    let mut records: usize = 0;
    // A row says itself how many numbers it takes, so that no range and no iterator counts the turns.
    while p.number < t.numbers.len() {
        p = rows::take_row(t, p, year)?;
        records += 1;
    }
    if (t.elements.len() <= p.element) & (t.bytes.len() <= p.byte) {
        return Ok(Totals {
            length: p.length,
            records,
        });
    }
    refused(Reason::Table, p.number)
}
