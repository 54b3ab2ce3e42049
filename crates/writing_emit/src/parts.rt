// The parts of a metric, and their texts.
ghost use Rattle.std.specs.Prelude.{◌≡◌, ◌+◌, ◌≤◌, ◌<◌, length, drop, take};
ghost use Rattle.std.proofs.lemmas.List.Edits.{sets};
ghost use Rattle.writing_emit.specs.Cursors.{table_of};
ghost use Rattle.writing_emit.specs.Parts.{PartFits, part_bytes, subobject_bytes, metric_table, MetricFits, metric_bytes};
ghost use Rattle.writing_emit.specs.Pieces.{Piece, Emitted, Counted};
ghost use Rattle.layout.specs.Bytes.{flat};
ghost use Rattle.layout.specs.Layout.Encode.{encode_text};
ghost use Rattle.layout.specs.Writing.Tables.{joined, flatten_part};

use crate::lists::Lists;
use fields::cursors::Cursor;
use fields::shapes::Shape;
use fields::{copies, elements, numbers, shapes};
use layout::{row, subobject};

// "With text, each part ends with a length byte L, L bytes and one zero." How many bytes that is comes back.
fn emit_text(bytes: &[u8], at: usize, n: usize, text: bool, out: &mut [u8], w: usize) -> usize
    requires { (at + n ≤ length bytes.now) × (n < 256) × (w + length (encode_text text (take n (drop at bytes.now))) ≤ length out.old) }
    ensures is { (result ≡ length (encode_text text (take n (drop at bytes.now)))) × (result < 258) }
    ensures wrote { out.new ≡ sets out.old w (encode_text text (take n (drop at bytes.now))) }
{
    if text {
        numbers::put::<u8>(out, w, n as u8);
        copies::put_bytes(bytes, at, n, out, w + 1);
        numbers::put::<u8>(out, w + 1 + n, 0);
        return n + 2;
    }
    0
}

impl Lists<'_> {
    // Writes the points of a part and its text.
    pub fn emit_part(&self, s: Shape, c: Cursor, out: &mut [u8]) -> Cursor
        requires { Piece flatten_part (PartFits s) (part_bytes s) c (table_of self.now) (length out.old) }
        ensures { Emitted flatten_part (PartFits s) (part_bytes s) c (table_of self.now)
            out.old out.new result }
    {
        let row = self.rows(c);
        let w = c.place;
        let count = row[row::POINTS] as usize;
        let n = row[row::TEXT_LENGTH] as usize;
        let size = count * shapes::point_size(s);
        let k = shapes::elements_of(count, s.three);
        elements::put_elements(self.elements, c.elements, count, s, out, w);
        let t = emit_text(self.bytes, c.bytes, n, s.text, out, w + size);
        Cursor {
            place: w + size + t,
            numbers: c.numbers + row::PART_WIDTH,
            elements: c.elements + k,
            bytes: c.bytes + n,
        }
    }

    // "Each subobject starts with N1 and N2", and then is as any part.
    pub fn emit_subobject(&self, s: Shape, c: Cursor, out: &mut [u8]) -> Cursor
        requires { Piece flatten_part (PartFits s) (subobject_bytes s) c (table_of self.now) (length out.old) }
        ensures { Emitted flatten_part (PartFits s) (subobject_bytes s) c (table_of self.now)
            out.old out.new result }
    {
        let w = c.place;
        let count = self.rows(c)[row::POINTS];
        let n1 = (count / subobject::UPPER_U64) as u16;
        let n2 = (count % subobject::UPPER_U64) as u16;
        numbers::put::<u16>(out, w, n1);
        numbers::put::<u16>(out, w + subobject::N2, n2);
        let d = Cursor {
            place: w + subobject::SIZE,
            ..c
        };
        self.emit_part(s, d, out)
    }

    // Writes n later parts, one after another.
    pub fn emit_subobjects(&self, s: Shape, n: usize, c: Cursor, out: &mut [u8]) -> Cursor
        requires { Piece (joined flatten_part) (Counted n (PartFits s)) (flat (subobject_bytes s)) c (table_of self.now)
            (length out.old) }
        ensures { Emitted (joined flatten_part) (Counted n (PartFits s)) (flat (subobject_bytes s)) c
            (table_of self.now) out.old out.new result }
    {
        let mut acc = c;
        for _ in 0..n {
            acc = self.emit_subobject(s, acc, out);
        }
        acc
    }

    // Writes the metric of a record: the first part, and n later ones.
    pub fn emit_metric(&self, s: Shape, n: usize, c: Cursor, out: &mut [u8]) -> Cursor
        requires { Piece metric_table (MetricFits s n) (metric_bytes s) c (table_of self.now) (length out.old) }
        ensures { Emitted metric_table (MetricFits s n) (metric_bytes s) c (table_of self.now)
            out.old out.new result }
    {
        let d = self.emit_part(s, c, out);
        self.emit_subobjects(s, n, d, out)
    }
}
