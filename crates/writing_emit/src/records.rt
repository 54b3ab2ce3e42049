// A record. Its header has the lengths of its metric and semantics, so those are written first, 32 bytes on, and the header last.
ghost use Rattle.std.specs.Prelude.{length};
ghost use Rattle.writing_emit.specs.Cursors.{table_of};
ghost use Rattle.writing_emit.specs.Pieces.{Piece, Emitted, Counted};
ghost use Rattle.layout.specs.Bytes.{flat};
ghost use Rattle.layout.specs.Layout.Encode.{encode_record};
ghost use Rattle.layout.specs.Layout.Fine.{FineRecord};
ghost use Rattle.layout.specs.Writing.Tables.{joined, flatten_record};

use crate::headers;
use crate::lists::Lists;
use fields::cursors::Cursor;
use fields::shapes;
use layout::{header, row};

impl Lists<'_> {
    // Writes one record.
    pub fn emit_record(&self, c: Cursor, out: &mut [u8]) -> Cursor
        requires { Piece flatten_record FineRecord encode_record c (table_of self.now) (length out.old) }
        ensures { Emitted flatten_record FineRecord encode_record c (table_of self.now)
            out.old out.new result }
    {
        let row = self.rows(c);
        let w = c.place + header::SIZE;
        let s = shapes::shape_in(row[row::REFERENCE]);
        let later = row[row::PARTS] as usize - 1;
        let n = row[row::ITEMS] as usize;
        let first = Cursor {
            place: w,
            numbers: c.numbers + row::WIDTH,
            ..c
        };
        let d = self.emit_metric(s, later, first, out);
        let e = self.emit_items(n, d, out);
        headers::put_header(row, d.place - w, e.place - d.place, out, c.place);
        e
    }

    // Writes n records, one after another.
    pub fn emit_records(&self, n: usize, c: Cursor, out: &mut [u8]) -> Cursor
        requires { Piece (joined flatten_record) (Counted n FineRecord) (flat encode_record) c
            (table_of self.now) (length out.old) }
        ensures { Emitted (joined flatten_record) (Counted n FineRecord) (flat encode_record) c
            (table_of self.now) out.old out.new result }
    {
        let mut acc = c;
        for _ in 0..n {
            acc = self.emit_record(acc, out);
        }
        acc
    }
}
