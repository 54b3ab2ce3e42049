// The semantic items of a record.
ghost use Rattle.std.specs.Prelude.{◌++◌, ◌≡◌, ◌+◌, ◌≤◌, ◌<◌, ◌^◌, length};
ghost use Rattle.std.proofs.lemmas.List.Edits.{sets};
ghost use Rattle.writing_emit.specs.Cursors.{table_of};
ghost use Rattle.writing_emit.specs.Pieces.{Piece, Emitted, Counted};
ghost use Rattle.fields.specs.Kinds.{kind_by};
ghost use Rattle.layout.specs.Bytes.{bytes as bytes_of, flat};
ghost use Rattle.layout.specs.Fields.Item;
ghost use Rattle.layout.specs.Layout.Encode.{encode_item};
ghost use Rattle.layout.specs.Layout.Fine.{FineItem};
ghost use Rattle.layout.specs.Shared.Types.{length_bytes};
ghost use Rattle.layout.specs.Writing.Tables.{joined, flatten_item};

use crate::lists::Lists;
use fields::cursors::Cursor;
use fields::kinds::Kind;
use fields::{copies, numbers};
use layout::{item, row};

// Code, type and scale; t is the type.
fn put_head(out: &mut [u8], w: usize, code: u16, t: u8, scale: u8)
    requires { w + Item.size ≤ length out.old }
    ensures { out.new ≡ sets out.old w (bytes_of 2 code ++ bytes_of 1 t ++ bytes_of 1 scale) }
{
    numbers::put::<u16>(out, w, code);
    numbers::put::<u8>(out, w + item::TYPE, t);
    numbers::put::<u8>(out, w + item::SCALE, scale);
}

// "128: scale 0xFF, then a 4-byte length". How many bytes of length there are comes back.
fn put_length(out: &mut [u8], w: usize, k: Kind, n: usize) -> usize
    requires { (w + length_bytes (kind_by k) ≤ length out.old) × (n < 2 ^ 32) }
    ensures is { (result ≡ length_bytes (kind_by k)) × (result ≤ 4) }
    ensures wrote { out.new ≡ sets out.old w (bytes_of (length_bytes (kind_by k)) n) }
{
    if k.is_long() {
        numbers::put::<u32>(out, w, n as u32);
        return item::LONG_LENGTH_WIDTH;
    }
    0
}

impl Lists<'_> {
    // Writes one item: its head, the length that type 128 has, its value.
    pub fn emit_item(&self, c: Cursor, out: &mut [u8]) -> Cursor
        requires { Piece flatten_item FineItem encode_item c (table_of self.now) (length out.old) }
        ensures { Emitted flatten_item FineItem encode_item c (table_of self.now) out.old out.new result }
    {
        let row = self.rows(c);
        let w = c.place;
        let t = row[row::ITEM_TYPE];
        let n = row[row::ITEM_LENGTH] as usize;
        put_head(
            out,
            w,
            row[row::ITEM_CODE] as u16,
            t as u8,
            row[row::ITEM_SCALE] as u8,
        );
        let p = put_length(out, w + item::SIZE, Kind::from(t), n);
        copies::put_bytes(self.bytes, c.bytes, n, out, w + item::SIZE + p);
        Cursor {
            place: w + item::SIZE + p + n,
            numbers: c.numbers + row::ITEM_WIDTH,
            elements: c.elements,
            bytes: c.bytes + n,
        }
    }

    // Writes n items, one after another.
    pub fn emit_items(&self, n: usize, c: Cursor, out: &mut [u8]) -> Cursor
        requires { Piece (joined flatten_item) (Counted n FineItem) (flat encode_item) c (table_of self.now) (length out.old) }
        ensures { Emitted (joined flatten_item) (Counted n FineItem) (flat encode_item) c (table_of self.now)
            out.old out.new result }
    {
        let mut acc = c;
        for _ in 0..n {
            acc = self.emit_item(acc, out);
        }
        acc
    }
}
