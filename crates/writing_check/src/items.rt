// The items of a record: four numbers each, and a value in the pool of bytes.
ghost use Rattle.std.specs.Prelude.{List, ◌≡◌, ℕ, ◌+◌, ◌-◌, ◌*◌, ◌≤◌, ◌<◌, ◌^◌, length, drop};
ghost use Rattle.fields.specs.Checks.{checked};
ghost use Rattle.fields.specs.Kinds.{kind_by};
ghost use Rattle.layout.specs.Fields.{limit};
ghost use Rattle.layout.specs.Layout.Sizes.{sum_by, item_bytes};
ghost use Rattle.layout.specs.Shared.Row.{item_width};
ghost use Rattle.layout.specs.Shared.Types.{kind_of};
ghost use Rattle.layout.specs.Walk.{answer, up_to};
ghost use Rattle.layout.specs.Writing.Items.{item_row_in, item_rules, take_item};
ghost use Rattle.layout.specs.Writing.Tables.{joined, many, flatten_item};
ghost use Rattle.writing_check.specs.Items.{row_of, head_rules, size_rules, value_rules, length_of};
ghost use Rattle.writing_check.specs.Places.{lists, with_elements, here, moved_of, AtBy, Any};

use crate::pieces::take_all;
use crate::places::{Places, longer};
use crate::record_table::RecordTable;
use fields::checks::{demand, feature};
use fields::kinds::Kind;
use fields::{numbers, texts};
use layout::refusals::Reason;
use layout::{Refusal, bounds, item, row, years};

// The four numbers of an item's row; t is its type.
#[derive(Clone, Copy)]
pub struct ItemNumbers {
    pub code: u64,
    pub t: u64,
    pub scale: u64,
    pub size: u64,
}

impl ItemNumbers {
    fn read(numbers: &[u64], at: usize) -> ItemNumbers
        requires { at + item_width ≤ length numbers.now }
        ensures { row_of result ≡ item_row_in (drop at numbers.now) }
    {
        ItemNumbers {
            code: numbers[at],
            t: numbers[at + row::ITEM_TYPE],
            scale: numbers[at + row::ITEM_SCALE],
            size: numbers[at + row::ITEM_LENGTH],
        }
    }

    // The rules on code, type and scale.
    fn head_rules(self, k: Kind, place: usize, year: u32) -> Result<(), Refusal>
        requires { place + item_width ≤ 2 ^ 64 }
        ensures { result ≡ checked year place (head_rules self (kind_by k)) }
    {
        let at_type = place + row::ITEM_TYPE;
        let at_scale = place + row::ITEM_SCALE;
        demand(
            self.code < bounds::TWO_BYTES,
            Reason::Table,
            place + row::ITEM_CODE,
        )?;
        demand(self.t < bounds::ONE_BYTE, Reason::Table, at_type)?;
        demand(k.is_known(), Reason::Semantic, at_type)?;
        feature(k.is_long(), years::TYPE_128, at_type, year)?;
        demand(self.scale < bounds::ONE_BYTE, Reason::Table, at_scale)?;
        demand(k.good_scale(self.scale), Reason::Semantic, at_scale)
    }

    // The rules on the value length, with so many bytes left in the pool.
    fn size_rules(self, k: Kind, left: usize, place: usize) -> Result<(), Refusal>
        requires { (place + item_width ≤ 2 ^ 64) × (self.scale < 256) }
        ensures { (y : ℕ) → result ≡ checked y place (size_rules self (kind_by k) left) }
    {
        let at = place + row::ITEM_LENGTH;
        let size = self.size as usize;
        let own = k.value_length(self.scale as u8, size);
        demand(self.size < bounds::FOUR_BYTES, Reason::Table, at)?;
        demand(size == own, Reason::Table, at)?;
        demand(k.good_length(size), Reason::Semantic, at)?;
        demand(size <= left, Reason::Table, at)
    }

    // The rules on the value: its length, and its closing zeros in the pool from `at` on.
    fn value_rules(self, bytes: &[u8], at: usize, k: Kind, place: usize) -> Result<(), Refusal>
        requires { (at ≤ length bytes.now) × (place + item_width ≤ 2 ^ 64) × (self.scale < 256) }
        ensures { (y : ℕ) → result ≡ checked y place (value_rules self (kind_by k) (length bytes.now - at) (drop at bytes.now)) }
    {
        self.size_rules(k, bytes.len() - at, place)?;
        let zeros = k.closing();
        let end = at + self.size as usize - zeros;
        let closed = texts::all_zero(numbers::part(bytes, end, zeros));
        demand(closed, Reason::Text, place + row::ITEM_LENGTH)
    }

    // All checks on an item of a kind whose value starts at a place of the pool.
    fn rules(self, bytes: &[u8], at: usize, k: Kind, place: usize, year: u32) -> Result<(), Refusal>
        requires { (at ≤ length bytes.now) × (place + item_width ≤ 2 ^ 64) × (kind_by k ≡ kind_of self.t) }
        ensures { result ≡ checked year place (item_rules (row_of self) (drop at bytes.now)) }
    {
        self.head_rules(k, place, year)?;
        self.value_rules(bytes, at, k, place)
    }

    // How many bytes an item of a kind has that was let through.
    fn length(self, k: Kind) -> usize
        requires { self.size < 2 ^ 32 }
        ensures { (result ≡ length_of self (kind_by k)) × (result < 2 ^ 33) }
    {
        item::SIZE + (k.length_bytes() + self.size as usize)
    }
}

// Takes one item, whatever the elements are.
pub fn take_item(t: &RecordTable, p: Places, year: u32) -> Result<Places, Refusal>
    requires { (p.number + item_width ≤ length t.now.numbers.now) × (p.byte ≤ length t.now.bytes.now) × (p.length ≤ limit + 1) }
    ensures { (es : List ℕ) → result ≡ moved_of flatten_item item_bytes p
        (answer (up_to year) (take_item p.number (here (with_elements es t.now) p))) }
{
    let a = ItemNumbers::read(t.numbers, p.number);
    let k = Kind::from(a.t);
    a.rules(t.bytes, p.byte, k, p.number, year)?;
    Ok(Places {
        number: p.number + row::ITEM_WIDTH,
        element: p.element,
        byte: p.byte + a.size as usize,
        length: longer(p.length, a.length(k)),
    })
}

// Takes n items, one after another.
pub fn take_items(t: &RecordTable, p: Places, n: u64, year: u32) -> Result<Places, Refusal>
    requires { AtBy Any (lists t.now) p × (p.number + item_width * n ≤ length t.now.numbers.now) }
    ensures { (es : List ℕ) → result ≡ moved_of (joined flatten_item) (sum_by item_bytes) p
        (answer (up_to year) (many n item_width take_item p.number (here (with_elements es t.now) p))) }
{
    take_all(n, p, |q| take_item(t, q, year))
}
