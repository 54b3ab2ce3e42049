// The parts of a metric, and their texts.
ghost use Rattle.std.specs.Prelude.{cond, ◌≡◌, ◌+◌, ◌*◌, ◌≤◌, ◌<◌, ◌^◌, length, drop};
ghost use Rattle.std.proofs.lemmas.List.Edits.{sets};
ghost use Rattle.reading_fill.specs.Cursors.{ahead, HasRoom, Fills};
ghost use Rattle.fields.specs.Cursors.{moved};
ghost use Rattle.reading_fill.specs.Parts.{text_in, text_size, part_in, part_size, subobject_in, subobject_size, subobjects_in, subobjects_size};
ghost use Rattle.fields.specs.Shapes.{widths_of, point_of};
ghost use Rattle.layout.specs.Bytes.{numbers, repeat};
ghost use Rattle.layout.specs.Writing.Tables.{joined, flatten_part};

use crate::filler::Filler;
use crate::rows;
use fields::cursors::Cursor;
use fields::shapes::Shape;
use fields::{copies, elements, numbers, shapes};
use layout::{row, subobject};

// The text that starts at a place with its length byte, if there are texts; its length comes back.
pub fn fill_text(xs: &[u8], at: usize, text: bool, out: &mut [u8], w: usize) -> usize
    requires { (at + text_size text (drop at xs.now) ≤ length xs.now) × (w + length (text_in text (drop at xs.now)) ≤ length out.old) }
    ensures is { (result ≡ length (text_in text (drop at xs.now))) × (result < 256) }
    ensures wrote { out.new ≡ sets out.old w (text_in text (drop at xs.now)) }
{
    if text {
        let n = numbers::at::<u8>(xs, at) as usize;
        copies::put_bytes(xs, at + 1, n, out, w);
        return n;
    }
    0
}

// How many bytes of the sheet a text of n bytes takes, with its length byte and its closing zero.
fn text_size(text: bool, n: usize) -> usize
    requires { n < 256 }
    ensures { (result ≡ cond text (n + 2) 0) × (result < 258) }
{
    if text {
        return n + 2;
    }
    0
}

impl Filler<'_> {
    // Fills the two numbers, the elements and the text of a part of count points.
    pub fn fill_part(&mut self, xs: &[u8], s: Shape, count: usize, c: Cursor) -> Cursor
        requires { HasRoom c (part_size s count (ahead c xs.now)) (flatten_part (part_in s count (ahead c xs.now)))
            (length xs.now) self.old × (count < 2 ^ 32) }
        ensures is { result ≡ moved c (part_size s count (ahead c xs.now)) (flatten_part (part_in s count (ahead c xs.now))) }
        ensures wrote { Fills c (flatten_part (part_in s count (ahead c xs.now))) self.old self.new }
    {
        let at = c.place;
        let w = c.numbers;
        let e = c.elements;
        let b = c.bytes;
        let size = count * shapes::point_size(s);
        let n = shapes::elements_of(count, s.three);
        elements::read_elements(xs, at, count, s, self.elements, e);
        let l = fill_text(xs, at + size, s.text, self.bytes, b);
        rows::put_part(self.numbers, w, count, l);
        let t = text_size(s.text, l);
        Cursor {
            place: at + size + t,
            numbers: w + row::PART_WIDTH,
            elements: e + n,
            bytes: b + l,
        }
    }

    // Fills a later part: its count stands before it as N1 and N2.
    pub fn fill_subobject(&mut self, xs: &[u8], s: Shape, c: Cursor) -> Cursor
        requires { HasRoom c (subobject_size s (ahead c xs.now)) (flatten_part (subobject_in s (ahead c xs.now)))
            (length xs.now) self.old }
        ensures is { result ≡ moved c (subobject_size s (ahead c xs.now)) (flatten_part (subobject_in s (ahead c xs.now))) }
        ensures wrote { Fills c (flatten_part (subobject_in s (ahead c xs.now))) self.old self.new }
    {
        let at = c.place;
        let n1 = numbers::at::<u16>(xs, at) as usize;
        let n2 = numbers::at::<u16>(xs, at + subobject::N2) as usize;
        let d = Cursor {
            place: at + subobject::SIZE,
            ..c
        };
        self.fill_part(xs, s, n2 + subobject::UPPER * n1, d)
    }

    // Fills n later parts, one after another.
    pub fn fill_subobjects(&mut self, xs: &[u8], s: Shape, n: usize, c: Cursor) -> Cursor
        requires { HasRoom c (subobjects_size s n (ahead c xs.now)) (joined flatten_part (subobjects_in s n (ahead c xs.now)))
            (length xs.now) self.old }
        ensures is { result ≡ moved c (subobjects_size s n (ahead c xs.now)) (joined flatten_part (subobjects_in s n (ahead c xs.now))) }
        ensures wrote { Fills c (joined flatten_part (subobjects_in s n (ahead c xs.now))) self.old self.new }
    {
        let mut acc = c;
        for _ in 0..n {
            acc = self.fill_subobject(xs, s, acc);
        }
        acc
    }
}
