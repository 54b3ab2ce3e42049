// A record: its nine numbers, its parts, its items. The nine numbers are written last, since only then the items are counted.
ghost use Rattle.std.specs.Prelude.{◌≡◌, ◌+◌, ◌≤◌, ◌<◌, ◌^◌, length};
ghost use Rattle.fields.specs.Headers.{header_of};
ghost use Rattle.layout.specs.Fields.Header as Field;
ghost use Rattle.reading_fill.specs.Cursors.{ahead, HasRoom, HasFlatRoom, Fills};
ghost use Rattle.fields.specs.Cursors.{moved};
ghost use Rattle.reading_fill.specs.Pieces.{Each};
ghost use Rattle.reading_fill.specs.Records.{record_in, record_size, records_in, records_size, metric_size, metric_table, RecordFits};
ghost use Rattle.reading_fill.specs.Records.{parts_size_in, parts_table_in, items_size_in, items_table_in, inside};
ghost use Rattle.layout.specs.Reading.Records.{semantics_in};
ghost use Rattle.layout.specs.Writing.Tables.{joined, flatten_record};

use crate::filler::Filler;
use crate::rows;
use fields::cursors::Cursor;
use fields::headers::{Header, header_at};
use fields::records::first_count;
use fields::shapes::Shape;
use fields::{numbers, shapes};
use layout::{header, row};

impl Filler<'_> {
    // Fills the first part, and n later ones.
    fn fill_metric(&mut self, xs: &[u8], s: Shape, count: usize, n: usize, c: Cursor) -> Cursor
        requires { HasRoom c (metric_size s count n (ahead c xs.now)) (metric_table s count n (ahead c xs.now))
            (length xs.now) self.old × (count < 2 ^ 32) }
        ensures is { result ≡ moved c (metric_size s count n (ahead c xs.now)) (metric_table s count n (ahead c xs.now)) }
        ensures wrote { Fills c (metric_table s count n (ahead c xs.now)) self.old self.new }
    {
        let d = self.fill_part(xs, s, count, c);
        self.fill_subobjects(xs, s, n, d)
    }

    // The metric of the record at a place, whose header is h; the cursor that comes back counts its place from the metric's start.
    fn record_metric(&mut self, xs: &[u8], h: Header, c: Cursor) -> Cursor
        requires { HasRoom (inside c) (parts_size_in (header_of h) (ahead c xs.now)) (parts_table_in (header_of h) (ahead c xs.now))
            (header_of h).metric self.old
            × (c.place + (Field.size + (header_of h).metric) ≤ length xs.now) }
        ensures is { result ≡ moved (inside c) (parts_size_in (header_of h) (ahead c xs.now)) (parts_table_in (header_of h) (ahead c xs.now)) }
        ensures wrote { Fills (inside c) (parts_table_in (header_of h) (ahead c xs.now)) self.old self.new }
    {
        let n = h.subobjects as usize;
        let s = shapes::shape_of(h.reference);
        let count = first_count(h.points, h.word) as usize;
        let d = Cursor { place: 0, ..c };
        let ys = numbers::part(xs, c.place + header::SIZE, h.metric as usize);
        self.fill_metric(ys, s, count, n, d)
    }

    // Fills its items; the cursor that comes back counts its place from the end of the metric.
    fn record_items(&mut self, xs: &[u8], h: Header, c: Cursor) -> Cursor
        requires { HasFlatRoom (inside c) (items_size_in (header_of h) (ahead c xs.now)) (items_table_in (header_of h) (ahead c xs.now))
            (length (semantics_in (header_of h) (ahead c xs.now))) self.old
            × (Field.size + (header_of h).metric ≤ (header_of h).total) × (c.place + (header_of h).total ≤ length xs.now) }
        ensures is { result ≡ moved (inside c) (items_size_in (header_of h) (ahead c xs.now)) (items_table_in (header_of h) (ahead c xs.now)) }
        ensures wrote { Fills (inside c) (items_table_in (header_of h) (ahead c xs.now)) self.old self.new }
    {
        let total = h.total as usize;
        let metric = h.metric as usize;
        let d = Cursor { place: 0, ..c };
        let ys = numbers::part(
            xs,
            c.place + header::SIZE + metric,
            total - header::SIZE - metric,
        );
        self.fill_items(ys, d)
    }

    // Fills a record: its parts, its items, and last its nine numbers.
    pub fn fill_record(&mut self, xs: &[u8], c: Cursor) -> Cursor
        requires { HasRoom c (record_size (ahead c xs.now)) (flatten_record (record_in (ahead c xs.now)))
            (length xs.now) self.old × RecordFits (ahead c xs.now) }
        ensures is { result ≡ moved c (record_size (ahead c xs.now)) (flatten_record (record_in (ahead c xs.now))) }
        ensures wrote { Fills c (flatten_record (record_in (ahead c xs.now))) self.old self.new }
    {
        let at = c.place;
        let h = header_at(xs, at);
        let past = Cursor {
            numbers: c.numbers + row::WIDTH,
            ..c
        };
        let d = self.record_metric(xs, h, past);
        let behind = Cursor { place: at, ..d };
        let e = self.record_items(xs, h, behind);
        let n = (e.numbers - d.numbers) / row::ITEM_WIDTH;
        rows::put_record(self.numbers, c.numbers, h, n);
        Cursor {
            place: at + h.total as usize,
            ..e
        }
    }

    // Fills n records, one after another.
    pub fn fill_records(&mut self, xs: &[u8], n: usize, c: Cursor) -> Cursor
        requires { HasRoom c (records_size n (ahead c xs.now)) (joined flatten_record (records_in n (ahead c xs.now)))
            (length xs.now) self.old × Each RecordFits record_size n (ahead c xs.now) }
        ensures is { result ≡ moved c (records_size n (ahead c xs.now)) (joined flatten_record (records_in n (ahead c xs.now))) }
        ensures wrote { Fills c (joined flatten_record (records_in n (ahead c xs.now))) self.old self.new }
    {
        let mut acc = c;
        for _ in 0..n {
            acc = self.fill_record(xs, acc);
        }
        acc
    }
}
