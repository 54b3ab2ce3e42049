// A record asked for by its number, from 0. (01, The record table: "answers place, total length, its eight numbers and its first part's
// points"; the numbers are nine since request 2 of document 02)
ghost use Rattle.std.specs.Prelude.{◌≡◌, ◌+◌, ◌-◌, ◌*◌, ◌/◌, ◌≤◌, length};
ghost use Rattle.layout.specs.Answers.Calls.{and_then, asked, record_of};
ghost use Rattle.layout.specs.Answers.Enums.{found_of};
ghost use Rattle.layout.specs.Fields.Header;
ghost use Rattle.layout.specs.Reading.Hops.{place_in};
ghost use Rattle.layout.specs.Reading.Records.{header_in};
ghost use Rattle.layout.specs.Reading.Sheets.{start, sheet_walk};
ghost use Rattle.layout.specs.Shared.Row.{part_width, item_width, row_size};
ghost use Rattle.layout.specs.Walk.{answer, up_to};
ghost use Rattle.reading.specs.Found.{AcceptedAt, Hops, record_by};

use crate::sheets::check;
use fields::checks::refused;
use fields::headers::header_at;
use fields::numbers;
use fields::records::{first_count, mark_of};
use layout::refusals::Reason;
use layout::{RecordAt, Refusal, row, sheet};
use meanings::setting::Setting;
use reading_check::records;

// Where the record of a number starts: from header to header, by their total lengths.
fn place_of(s: &[u8], number: u64) -> usize
    requires { Hops number start s.now }
    ensures { result ≡ place_in number start s.now }
{
    let mut at: usize = sheet::START;
    for _ in 0..number {
        at += header_at(s, at).total as usize;
    }
    at
}

// How many items a record has, by its count of numbers: nine, two for each part, four for each item.
fn items_of(numbers: usize, subobjects: u16) -> usize
    ensures { result ≡ (numbers - (row_size 1 0 + part_width * subobjects)) / item_width }
{
    let others = row::WITH_FIRST + row::PART_WIDTH * (subobjects as usize);
    numbers.saturating_sub(others) / row::ITEM_WIDTH
}

// The record that starts at a place, with xs from there on, by its header and its count of numbers.
fn record_by(xs: &[u8], place: usize, count: usize) -> RecordAt
    requires { Header.size ≤ length xs.now }
    ensures { result ≡ record_by place count (header_in xs.now) }
{
    let h = header_at(xs, 0);
    RecordAt {
        place,
        total: h.total as usize,
        code: h.code,
        in_group: h.in_group,
        group: h.group,
        reference: h.reference.number(),
        generalisation: h.generalisation,
        word: h.word,
        parts: 1 + (h.subobjects as u32),
        items: items_of(count, h.subobjects),
        mark: mark_of(h.points),
        points: first_count(h.points, h.word),
    }
}

// The record of a number, of a sheet that is accepted at a year and has so many records.
fn record_in(s: &[u8], year: u32, number: u64, count: u64) -> Result<RecordAt, Refusal>
    requires { AcceptedAt s.now year count }
    ensures { result ≡ found_of (and_then (answer (up_to year) (sheet_walk s.now)) (λ t. record_of start t.records number)) }
{
    if count <= number {
        return refused(Reason::Ask, 0);
    }
    let at = place_of(s, number);
    let xs = numbers::rest(s, at);
    let t = records::records(xs, at, 1, year)?;
    Ok(record_by(xs, at, t.numbers))
}

// A number that is not below the count is refused after the sheet's own refusals.
pub fn record_at(s: &[u8], setting: Setting, number: u64) -> Result<RecordAt, Refusal>
    ensures { result ≡ found_of (asked setting.year s.now number) }
{
    let sizes = check(s, setting)?;
    record_in(s, setting.year(), number, sizes.records as u64)
}

// The same at a year, for C has years (`sxf_record_at`).
pub fn record_by_year(s: &[u8], year: u32, number: u64) -> Result<RecordAt, Refusal>
    ensures { result ≡ found_of (asked year s.now number) }
{
    let setting = Setting::new(year)?;
    record_at(s, setting, number)
}
