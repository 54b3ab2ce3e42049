// The header of a record, from its row in the table and the lengths of its metric and semantics.
ghost use Rattle.std.specs.Prelude.{◌≡◌, ◌+◌, ◌≤◌, ◌<◌, ◌^◌, length};
ghost use Rattle.std.proofs.lemmas.List.Edits.{sets};
ghost use Rattle.layout.specs.Fields.Header;
ghost use Rattle.writing_emit.specs.Records.{lengths_of, names_of, reference_and_word, counts_of, header_of, RowFits};
ghost use Rattle.layout.specs.Layout.Fine.{Fits};
ghost use Rattle.layout.specs.Shared.Mark.{points_of};
ghost use Rattle.layout.specs.Shared.Row.{row_width};

use fields::records::ReferenceBytes;
use fields::{numbers, records};
use layout::{header, pieces, row, sheet};

// "+0 identifier 0x7FFF7FFF; +4 total length; +8 metric length"
fn put_lengths(out: &mut [u8], w: usize, metric: usize, semantics: usize)
    requires { (w + (Header.code).place ≤ length out.old) × (Header.size + metric + semantics < 2 ^ 32) }
    ensures { out.new ≡ sets out.old w (lengths_of metric semantics) }
{
    numbers::put::<u32>(out, w, header::IDENTIFIER_IS);
    numbers::put::<u32>(
        out,
        w + header::TOTAL,
        (header::SIZE + metric + semantics) as u32,
    );
    numbers::put::<u32>(out, w + header::METRIC, metric as u32);
}

// "+12 class code; +16 number in group; +18 group number"
fn put_names(row: &[u64], out: &mut [u8], w: usize)
    requires { (row_width ≤ length row.now) × RowFits row.now × (w + 8 ≤ length out.old) }
    ensures { out.new ≡ sets out.old w (names_of row.now) }
{
    let code = row[row::CODE];
    let in_group = row[row::IN_GROUP];
    let group = row[row::GROUP];
    numbers::put::<u32>(out, w, code as u32);
    numbers::put::<u16>(out, w + pieces::IN_GROUP, in_group as u16);
    numbers::put::<u16>(out, w + pieces::GROUP, group as u16);
}

// "+20 to +22 reference bytes; +23 generalisation; +24 a word"
fn put_reference_and_word(row: &[u64], out: &mut [u8], w: usize)
    requires { (row_width ≤ length row.now) × RowFits row.now × (w + 8 ≤ length out.old) }
    ensures { out.new ≡ sets out.old w (reference_and_word row.now) }
{
    let b = ReferenceBytes::of(row[row::REFERENCE]);
    numbers::put::<u8>(out, w, b.byte20);
    numbers::put::<u8>(out, w + pieces::BYTE21, b.byte21);
    numbers::put::<u8>(out, w + pieces::BYTE22, b.byte22);
    numbers::put::<u8>(
        out,
        w + pieces::GENERALISATION,
        row[row::GENERALISATION] as u8,
    );
    numbers::put::<u32>(out, w + pieces::WORD, row[row::WORD] as u32);
}

// "Points 65535 is a mark": what stands at +30, by the mark and the first count.
fn points_of(mark: u64, count: u64) -> u16
    requires { Fits Header.points (points_of mark count) }
    ensures { result ≡ points_of mark count }
{
    if mark == 1 {
        return sheet::MARK;
    }
    count as u16
}

// "+28 subobjects; +30 points"
fn put_counts(row: &[u64], out: &mut [u8], w: usize)
    requires { (row_width < length row.now) × RowFits row.now × (w + 4 ≤ length out.old) }
    ensures { out.new ≡ sets out.old w (counts_of row.now) }
{
    numbers::put::<u16>(out, w, (row[row::PARTS] - 1) as u16);
    numbers::put::<u16>(
        out,
        w + pieces::POINTS,
        points_of(row[row::MARK], row[row::FIRST_POINTS]),
    );
}

// The 32 bytes of the record whose row starts the slice.
pub fn put_header(row: &[u64], metric: usize, semantics: usize, out: &mut [u8], w: usize)
    requires { (row_width < length row.now) × RowFits row.now × (w + Header.size ≤ length out.old)
        × (Header.size + metric + semantics < 2 ^ 32) }
    ensures { out.new ≡ sets out.old w (header_of row.now metric semantics) }
{
    put_lengths(out, w, metric, semantics);
    put_names(row, out, w + header::CODE);
    put_reference_and_word(row, out, w + header::BYTE20);
    put_counts(row, out, w + header::SUBOBJECTS);
}
