// A sheet is written into a lent slice. Two passes: the first checks all and gives the length, the second writes.
ghost use Rattle.std.specs.Prelude.{◌≡◌, ℕ, ◌<◌, ◌^◌, length};
ghost use Rattle.std.proofs.lemmas.List.Edits.{sets};
ghost use Rattle.layout.specs.Answers.Lent.{head_of, the_sheet};
ghost use Rattle.layout.specs.Answers.Calls.{written, lent};
ghost use Rattle.layout.specs.Answers.Enums.{written_of};
ghost use Rattle.layout.specs.Fields.Descriptor;
ghost use Rattle.layout.specs.Fields.Passport;
ghost use Rattle.layout.specs.Layout.Encode.{encode};
ghost use Rattle.layout.specs.Layout.Fine.{Fine};
ghost use Rattle.layout.specs.Shared.Tails.{AllClean};
ghost use Rattle.layout.specs.Sheet.{Sheet};
ghost use Rattle.layout.specs.Walk.{answer, up_to};
ghost use Rattle.layout.specs.Writing.Sheets.{table_walk};
ghost use Rattle.layout.specs.Writing.Tables.{flatten, table as table_of};
ghost use Rattle.writing.specs.Ready.{measured_of, Ready, written_at};
ghost use Rattle.writing_check.specs.Places.{lists};
ghost use Rattle.writing_head.specs.Heads.{head_in};

use fields::checks::refused;
use layout::refusals::Reason;
use layout::{Refusal, descriptor, passport, sheet};
use meanings::setting::Setting;
use writing_check::record_table::RecordTable;
use writing_check::tables;
use writing_check::tables::Totals;
use writing_head::texts::HeadTexts;
use writing_head::{check, emit};

// Pass 1: the head by place in the sheet, then the table, then TOO LONG. The scale is any number.
fn measure(head: HeadTexts, t: &RecordTable, year: u32) -> Result<Totals, Refusal>
    requires { (length head.rest.now ≡ (Passport.rest).width) × (length head.carried.now ≡ (Descriptor.carried).width) }
    ensures { (scale : ℕ) → scale < 256 ^ 4
        → result ≡ measured_of (answer (up_to year) (table_walk (head_in scale head.entry) (lists t.now))) }
{
    check::check(head, year)?;
    let totals = tables::check(t, year)?;
    if sheet::RECORDS_LIMIT < totals.length {
        return refused(Reason::TooLong, 0);
    }
    Ok(totals)
}

// Pass 2: head, records, and at last the sum, of what has just been written.
fn emit_sheet(head: HeadTexts, scale: u32, t: &RecordTable, totals: Totals, out: &mut [u8])
    requires { Ready (head_in scale head) (lists t.now) totals (length out.old) }
    ensures { (u : Sheet) → Fine u → AllClean u.tails → u.head ≡ head_in scale head.entry
        → flatten u.records ≡ lists t.now
        → out.new ≡ sets out.old 0 (encode u) }
{
    let count = totals.records as u32;
    emit::emit(head, scale, count, out);
    writing_emit::tables::emit(
        t.numbers,
        t.elements,
        t.bytes,
        totals.records,
        out,
        sheet::START,
    );
    emit::emit_sum(out, sheet::START + totals.length);
}

// Writes a sheet for a year that is known to be a setting.
fn write_at(
    head: HeadTexts,
    scale: u32,
    t: &RecordTable,
    year: u32,
    out: &mut [u8],
) -> Result<usize, Refusal>
    requires { (length head.rest.now ≡ (Passport.rest).width) × (length head.carried.now ≡ (Descriptor.carried).width) }
    ensures answers { result ≡ written_of (written_at year (head_in scale head.entry) (lists t.now) (length out.old)) }
    ensures sheet { out.new ≡ lent the_sheet (written_at year (head_in scale head.entry) (lists t.now) (length out.old)) out.old }
{
    let totals = measure(head, t, year)?;
    let n = sheet::START + totals.length;
    if out.len() < n {
        return refused(Reason::Room, 0);
    }
    emit_sheet(head, scale, t, totals, out);
    Ok(n)
}

// The sheet of a head and a record table goes to the start of the slice. Nothing is written before it is known that all of it is right
// and fits; a text is refused and never shortened.
pub fn write(
    date: &[u8],
    designation: &[u8],
    scale: u32,
    title: &[u8],
    rest: &[u8; passport::REST_WIDTH],
    designation2: &[u8],
    carried: &[u8; descriptor::CARRIED_WIDTH],
    table: &[u64],
    elements: &[u64],
    bytes: &[u8],
    setting: Setting,
    out: &mut [u8],
) -> Result<usize, Refusal>
    ensures answers { result ≡ written_of (written setting.year
        (head_of date.now designation.now scale title.now rest.now designation2.now
        carried.now)
        (table_of table.now elements.now bytes.now) (length out.old)) }
    ensures sheet { out.new ≡ lent the_sheet (written setting.year
        (head_of date.now designation.now scale title.now rest.now designation2.now
        carried.now)
        (table_of table.now elements.now bytes.now) (length out.old)) out.old }
{
    let head = HeadTexts {
        date,
        designation,
        title,
        rest,
        designation2,
        carried,
    };
    let t = RecordTable {
        numbers: table,
        elements,
        bytes,
    };
    write_at(head, scale, &t, setting.year(), out)
}

// Writes a sheet for a year, for C has years (`sxf_write`). One that is none of the nine is refused first.
pub fn write_by_year(
    date: &[u8],
    designation: &[u8],
    scale: u32,
    title: &[u8],
    rest: &[u8; passport::REST_WIDTH],
    designation2: &[u8],
    carried: &[u8; descriptor::CARRIED_WIDTH],
    table: &[u64],
    elements: &[u64],
    bytes: &[u8],
    year: u32,
    out: &mut [u8],
) -> Result<usize, Refusal>
    ensures answers { result ≡ written_of (written year
        (head_of date.now designation.now scale title.now rest.now designation2.now
        carried.now)
        (table_of table.now elements.now bytes.now) (length out.old)) }
    ensures sheet { out.new ≡ lent the_sheet (written year
        (head_of date.now designation.now scale title.now rest.now designation2.now
        carried.now)
        (table_of table.now elements.now bytes.now) (length out.old)) out.old }
{
    let setting = Setting::new(year)?;
    write(
        date,
        designation,
        scale,
        title,
        rest,
        designation2,
        carried,
        table,
        elements,
        bytes,
        setting,
        out,
    )
}
