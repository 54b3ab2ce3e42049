// The round trips as programs, so that nothing is asked of what is lent but its type. (Demands 2 and 3.)
ghost use Rattle.std.proofs.Math.Bool.{true};
ghost use Rattle.std.specs.Prelude.{List, ◌≡◌, ℕ, ◌≤◌, length, take};
ghost use Rattle.layout.specs.Answers.Calls.{roomy, written, over, lent};
ghost use Rattle.layout.specs.Answers.Enums.{written_of};
ghost use Rattle.layout.specs.Answers.Lent.{head_of, rooms, the_sheet};
ghost use Rattle.layout.specs.Bytes.{bytes_in};
ghost use Rattle.layout.specs.Fields.Descriptor;
ghost use Rattle.layout.specs.Fields.Passport;
ghost use Rattle.layout.specs.Layout.Cleared.{cleared};
ghost use Rattle.layout.specs.Reading.Sheets.{start};
ghost use Rattle.layout.specs.Shared.Tails.{AllClean};
ghost use Rattle.layout.specs.Sheet.{Sheet};
ghost use Rattle.layout.specs.Walk.{given};
ghost use Rattle.layout.specs.Writing.Tables.{table as table_of};
ghost use Rattle.layout.specs.Years.{is_setting};
ghost use Rattle.promises.specs.Hands.{head_by, HeadWithin, table_by, TableWithin};

use crate::lent;
use fields::copies::put_bytes;
use fields::numbers::part;
use layout::{HeadAt, Refusal, Sizes, descriptor, passport};
use meanings::setting::Setting;
use reading::heads::head_of;
use reading::sheets::unfold;
use writing::sheets::write;

// Reading a written sheet gives back the table, at the year that it was written for and at every later setting.
pub fn read_back(
    date: &[u8],
    designation: &[u8],
    scale: u32,
    title: &[u8],
    rest: &[u8; passport::REST_WIDTH],
    designation2: &[u8],
    carried: &[u8; descriptor::CARRIED_WIDTH],
    table: &[u64],
    elements: &[u64],
    bytes: &[u8],
    setting: Setting,
    out: &mut [u8],
    later: Setting,
    numbers: &mut [u64],
    pool: &mut [u64],
    texts: &mut [u8],
) -> bool
    ensures { (s : List ℕ) → written setting.year
        (head_of date.now designation.now scale title.now rest.now designation2.now
        carried.now)
        (table_of table.now elements.now bytes.now) (length out.old) ≡ given s
        → is_setting later.year ≡ true → setting.year ≤ later.year
        → length table.now ≤ length numbers.old → length elements.now ≤ length pool.old
        → length bytes.now ≤ length texts.old
        → (result ≡ true) × (numbers.new ≡ over table.now numbers.old)
        × (pool.new ≡ over elements.now pool.old)
        × (texts.new ≡ over bytes.now texts.old) }
{
    lent::head(date, designation, scale, title, rest, designation2, carried);
    lent::bytes(bytes);
    let Ok(n) = write(
        date,
        designation,
        scale,
        title,
        rest,
        designation2,
        carried,
        table,
        elements,
        bytes,
        setting,
        out,
    ) else {
        return false;
    };
    unfold(part(out, 0, n), later, numbers, pool, texts).is_ok()
}

fn first_of(s: &[u64], n: usize) -> &[u64]
    requires { n ≤ length s.now }
    ensures { result.now ≡ take n s.now }
{
    &s[0..n]
}

// The carried bytes of a sheet, as arrays: the writer takes them so.
fn rest_of(s: &[u8]) -> [u8; passport::REST_WIDTH]
    requires { start ≤ length s.now }
    ensures { result ≡ bytes_in Passport.rest s.now }
{
    let mut rest = [0u8; passport::REST_WIDTH];
    put_bytes(s, passport::REST, passport::REST_WIDTH, &mut rest, 0);
    rest
}

fn carried_of(s: &[u8]) -> [u8; descriptor::CARRIED_WIDTH]
    requires { start ≤ length s.now }
    ensures { result ≡ bytes_in Descriptor.carried s.now }
{
    let mut carried = [0u8; descriptor::CARRIED_WIDTH];
    put_bytes(
        s,
        descriptor::CARRIED,
        descriptor::CARRIED_WIDTH,
        &mut carried,
        0,
    );
    carried
}

// Writes what was read: the head from the sheet itself, by the lengths of its texts, and of each slice as much as was filled.
fn write_read(
    s: &[u8],
    h: HeadAt,
    z: Sizes,
    table: &[u64],
    elements: &[u64],
    bytes: &[u8],
    setting: Setting,
    out: &mut [u8],
) -> Result<usize, Refusal>
    requires { HeadWithin s.now h × TableWithin z table.now elements.now bytes.now }
    ensures answers { result ≡ written_of (written setting.year (head_by s.now h)
        (table_by z table.now elements.now bytes.now) (length out.old)) }
    ensures sheet { out.new ≡ lent the_sheet (written setting.year (head_by s.now h)
        (table_by z table.now elements.now bytes.now) (length out.old)) out.old }
{
    let rest = rest_of(s);
    let carried = carried_of(s);
    let date = part(s, passport::DATE, h.date.length);
    let designation = part(s, passport::DESIGNATION, h.designation.length);
    let title = part(s, passport::TITLE, h.title.length);
    let designation2 = part(s, descriptor::DESIGNATION, h.designation2.length);
    let numbers = first_of(table, z.numbers);
    let pool = first_of(elements, z.elements);
    let texts = part(bytes, 0, z.bytes);
    write(
        date,
        designation,
        h.scale,
        title,
        &rest,
        designation2,
        &carried,
        numbers,
        pool,
        texts,
        setting,
        out,
    )
}

// Writing the reading of an accepted sheet gives its bytes with the tails cleared and the sum to match; where all four text fields are clean,
// its bytes.
pub fn write_back(
    s: &[u8],
    setting: Setting,
    table: &mut [u64],
    elements: &mut [u64],
    bytes: &mut [u8],
    out: &mut [u8],
) -> bool
    ensures { (u : Sheet) → roomy setting.year s.now
        (rooms table.old elements.old bytes.old) ≡ given u
        → length s.now ≤ length out.old
        → (result ≡ true) × (out.new ≡ over (cleared s.now) out.old)
        × (AllClean u.tails → out.new ≡ over s.now out.old) }
{
    lent::bytes(s);
    let Ok(z) = unfold(s, setting, table, elements, bytes) else {
        return false;
    };
    let Ok(h) = head_of(s, setting) else {
        return false;
    };
    write_read(s, h, z, table, elements, bytes, setting, out).is_ok()
}
