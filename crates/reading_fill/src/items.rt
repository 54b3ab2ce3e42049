// The semantic items of a record.
ghost use Rattle.std.specs.Prelude.{◌≡◌, length};
ghost use Rattle.reading_fill.specs.Cursors.{ahead, HasFlatRoom, Fills};
ghost use Rattle.fields.specs.Cursors.{moved};
ghost use Rattle.reading_fill.specs.Items.{items_in, items_size};
ghost use Rattle.layout.specs.Reading.Items.{item_in, item_size};
ghost use Rattle.layout.specs.Writing.Tables.{joined, flatten_item};

use crate::filler::Filler;
use crate::rows;
use fields::cursors::Cursor;
use fields::kinds::{kind_at, value_size};
use fields::{copies, numbers};
use layout::{item, row};

impl Filler<'_> {
    // Fills the four numbers and the value of an item.
    pub fn fill_item(&mut self, xs: &[u8], c: Cursor) -> Cursor
        requires { HasFlatRoom c (item_size (ahead c xs.now)) (flatten_item (item_in (ahead c xs.now)))
            (length xs.now) self.old }
        ensures is { result ≡ moved c (item_size (ahead c xs.now)) (flatten_item (item_in (ahead c xs.now))) }
        ensures wrote { Fills c (flatten_item (item_in (ahead c xs.now))) self.old self.new }
    {
        let at = c.place;
        let w = c.numbers;
        let b = c.bytes;
        let code = numbers::at::<u16>(xs, at);
        let t = numbers::at::<u8>(xs, at + item::TYPE);
        let scale = numbers::at::<u8>(xs, at + item::SCALE);
        let k = kind_at(xs, at);
        let p = item::SIZE + k.length_bytes();
        let n = value_size(xs, at, k);
        copies::put_bytes(xs, at + p, n, self.bytes, b);
        rows::put_item(self.numbers, w, code, t, scale, n);
        Cursor {
            place: at + p + n,
            numbers: w + row::ITEM_WIDTH,
            elements: c.elements,
            bytes: b + n,
        }
    }

    // Fills items until their bytes end. Each says itself where the next starts, so that no range counts them.
    pub fn fill_items(&mut self, xs: &[u8], c: Cursor) -> Cursor
        requires { HasFlatRoom c (items_size (ahead c xs.now)) (joined flatten_item (items_in (ahead c xs.now)))
            (length xs.now) self.old }
        ensures is { result ≡ moved c (items_size (ahead c xs.now)) (joined flatten_item (items_in (ahead c xs.now))) }
        ensures wrote { Fills c (joined flatten_item (items_in (ahead c xs.now))) self.old self.new }
    {
        let mut acc = c;
        while acc.place < xs.len() {
            acc = self.fill_item(xs, acc);
        }
        acc
    }
}
