// A record's row: nine numbers, then its parts and its items.
ghost use Rattle.std.specs.Prelude.{◌≡◌, ℕ, ◌+◌, ◌*◌, ◌≤◌, ◌<◌, ◌^◌, leb, length, drop};
ghost use Rattle.fields.specs.Checks.{checked};
ghost use Rattle.layout.specs.Layout.Sizes.{record_bytes};
ghost use Rattle.layout.specs.Shared.Reference.{reference_checks};
ghost use Rattle.layout.specs.Shared.Row as Column;
ghost use Rattle.layout.specs.Shared.Row.{row_size, reference_of, row_width, part_width, item_width};
ghost use Rattle.layout.specs.Walk.{answer, up_to};
ghost use Rattle.layout.specs.Writing.Rows.{row_in, name_rules, mark_rules, count_rules, take_inside, row_walk};
ghost use Rattle.layout.specs.Writing.Tables.{flatten_record};
ghost use Rattle.writing_check.specs.Places.{lists, here, moved_of, At};
ghost use Rattle.writing_check.specs.Rows.{row_of, all_rules, inside_table, inside_bytes};

use crate::places::{Places, longer};
use crate::record_table::RecordTable;
use crate::{items, parts};
use fields::checks::{agree, demand, feature, refused};
use fields::records::ReferenceBytes;
use fields::{flags, records};
use layout::refusals::Reason;
use layout::{Refusal, bounds, header, row, years};

// Whether so many numbers left are enough for those parts and items. Counts near 2^64 are divided into and never multiplied, so
// that nothing wraps.
fn room(parts: u64, items: u64, left: u64) -> bool
    requires { row_width ≤ left }
    ensures { result ≡ leb (row_size parts items) left }
{
    let free = left - row::WIDTH_U64;
    if free / row::PART_WIDTH_U64 < parts {
        return false;
    }
    items <= (free - row::PART_WIDTH_U64 * parts) / row::ITEM_WIDTH_U64
}

// A row's nine numbers.
#[derive(Clone, Copy)]
pub struct Row {
    pub code: u64,
    pub in_group: u64,
    pub group: u64,
    pub reference: u64,
    pub generalisation: u64,
    pub word: u64,
    pub parts: u64,
    pub items: u64,
    pub mark: u64,
}

impl Row {
    fn read(numbers: &[u64], at: usize) -> Row
        requires { at + row_width ≤ length numbers.now }
        ensures { row_of result ≡ row_in (drop at numbers.now) }
    {
        Row {
            code: numbers[at],
            in_group: numbers[at + row::IN_GROUP],
            group: numbers[at + row::GROUP],
            reference: numbers[at + row::REFERENCE],
            generalisation: numbers[at + row::GENERALISATION],
            word: numbers[at + row::WORD],
            parts: numbers[at + row::PARTS],
            items: numbers[at + row::ITEMS],
            mark: numbers[at + row::MARK],
        }
    }

    // The rules on code, number in group and group number, and on the size of the reference number.
    #[tactic(auto, unfolding(layout::specs::Writing::Rows::name_rules))]
    fn name_rules(&self, place: usize) -> Result<(), Refusal>
        requires { place + row_width ≤ 2 ^ 64 }
        ensures { (y : ℕ) → result ≡ checked y place (name_rules (row_of self.now)) }
    {
        demand(
            self.code < bounds::FOUR_BYTES,
            Reason::Table,
            place + row::CODE,
        )?;
        demand(
            self.in_group < bounds::TWO_BYTES,
            Reason::Table,
            place + row::IN_GROUP,
        )?;
        demand(
            self.group < bounds::TWO_BYTES,
            Reason::Table,
            place + row::GROUP,
        )?;
        demand(
            self.reference < bounds::THREE_BYTES,
            Reason::Table,
            place + row::REFERENCE,
        )
    }

    // The rules on the reference number, byte by byte as in reading.
    fn reference_rules(&self, place: usize, year: u32) -> Result<(), Refusal>
        requires { place + row_width ≤ 2 ^ 64 }
        ensures { result ≡ checked year place
            (reference_checks Column.reference Column.reference Column.reference (reference_of self.now.reference)) }
    {
        let b = ReferenceBytes::of(self.reference);
        flags::reference_checks(
            b,
            place,
            row::REFERENCE,
            row::REFERENCE,
            row::REFERENCE,
            year,
        )
    }

    // The rules on the mark.
    fn mark_rules(&self, place: usize, year: u32) -> Result<(), Refusal>
        requires { place + row_width ≤ 2 ^ 64 }
        ensures { result ≡ checked year place (mark_rules self.now.mark) }
    {
        demand(self.mark <= 1, Reason::Table, place + row::MARK)?;
        feature(self.mark == 1, years::MARK_65535, place + row::MARK, year)
    }

    // The rules on generalisation, word, parts, items and mark.
    #[tactic(auto, unfolding(layout::specs::Writing::Rows::count_rules))]
    fn count_rules(&self, place: usize, year: u32) -> Result<(), Refusal>
        requires { place + row_width ≤ 2 ^ 64 }
        ensures { result ≡ checked year place (count_rules (row_of self.now)) }
    {
        let semantics = self.reference / 256 % 256 / 2 % 2 == 1;
        demand(
            self.generalisation < bounds::ONE_BYTE,
            Reason::Table,
            place + row::GENERALISATION,
        )?;
        demand(
            self.word < bounds::FOUR_BYTES,
            Reason::Table,
            place + row::WORD,
        )?;
        demand(
            (1 <= self.parts) & (self.parts <= bounds::TWO_BYTES),
            Reason::Table,
            place + row::PARTS,
        )?;
        demand(
            agree(semantics, 1 <= self.items),
            Reason::Table,
            place + row::ITEMS,
        )?;
        self.mark_rules(place, year)
    }

    // All rules on a row with so many numbers left.
    #[tactic(auto, using(fields::proofs::Laws::Chain::checked_both))]
    fn rules(&self, place: usize, left: usize, year: u32) -> Result<(), Refusal>
        requires { (place + row_width ≤ 2 ^ 64) × (row_width ≤ left) }
        ensures { result ≡ checked year place (all_rules (row_of self.now) left) }
    {
        demand(
            room(self.parts, self.items, left as u64),
            Reason::Table,
            place + row::CODE,
        )?;
        self.name_rules(place)?;
        self.reference_rules(place, year)?;
        self.count_rules(place, year)
    }
}

// The parts and items of a row that was let through, at the places after its nine numbers.
fn take_inside(t: &RecordTable, a: &Row, p: Places, year: u32) -> Result<Places, Refusal>
    requires { At (lists t.now) p × (1 ≤ a.now.parts)
        × (p.number + (part_width * a.now.parts + item_width * a.now.items) ≤ length t.now.numbers.now) }
    ensures { result ≡ moved_of inside_table inside_bytes p
        (answer (up_to year) (take_inside (row_of a.now) p.number (here (lists t.now) p))) }
{
    let q = parts::take_first(t, p, a.reference, a.mark, a.word)?;
    let s = parts::take_laters(t, q, a.parts - 1, a.reference, a.mark == 1)?;
    items::take_items(t, s, a.items, year)
}

// Takes the row of one record, its parts and its items.
pub fn take_row(t: &RecordTable, p: Places, year: u32) -> Result<Places, Refusal>
    requires { At (lists t.now) p }
    ensures { result ≡ moved_of flatten_record record_bytes p (answer (up_to year) (row_walk p.number (here (lists t.now) p))) }
{
    let left = t.numbers.len() - p.number;
    if left < row::WIDTH {
        return refused(Reason::Table, p.number);
    }
    let a = Row::read(t.numbers, p.number);
    a.rules(p.number, left, year)?;
    let after = Places {
        number: p.number + row::WIDTH,
        element: p.element,
        byte: p.byte,
        length: longer(p.length, header::SIZE),
    };
    take_inside(t, &a, after, year)
}
