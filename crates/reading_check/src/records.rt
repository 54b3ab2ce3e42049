// Records: header, metric, semantics.
ghost use Rattle.std.specs.Prelude.{◌≡◌, ◌+◌, ◌*◌, ◌≤◌, ◌<◌, ◌^◌, length};
ghost use Rattle.reading_check.specs.Records.{Passed, rest_walk, semantics_of};
ghost use Rattle.reading_check.specs.Tally.{shown, tally, Within, WithinT};
ghost use Rattle.fields.specs.Headers.{header_of};
ghost use Rattle.fields.specs.Sums.{SummedIn};
ghost use Rattle.layout.specs.Bytes.{total};
ghost use Rattle.layout.specs.Fields.{limit};
ghost use Rattle.layout.specs.Reading.Records.{record_walk};
ghost use Rattle.layout.specs.Walk.{times};
ghost use Rattle.layout.specs.Writing.Tables.{joined, flatten_record};

use crate::headers::check_header;
use crate::tally::Tally;
use crate::{items, parts};
use fields::checks::{agree, refused};
use fields::headers::{Header, header_at};
use fields::records::first_count;
use fields::sums::{Summed, sum_past};
use layout::refusals::Reason;
use layout::{Refusal, header, row, sheet};

// Checks the semantics of a record, which fill it after its metric; front is what was counted before them.
fn semantics(xs: &[u8], p: usize, flag: bool, front: Tally, year: u32) -> Result<Tally, Refusal>
    requires { (p + length xs.now < 2 ^ 32) × (front.used + length xs.now < 2 ^ 32) × WithinT front.used 0 front }
    ensures means { result ≡ semantics_of flag front year p xs.now }
    ensures within { Within (front.used + length xs.now) 0 result }
{
    if !agree(flag, 0 < xs.len()) {
        return refused(Reason::Length, p);
    }
    let s = items::items(xs, p, year)?;
    Ok(front.and(s))
}

// Checks metric and semantics of a record whose header h was let through.
#[tactic(auto, unfolding(fields::specs::Headers::header_of))]
fn rest(xs: &[u8], p: usize, h: Header, year: u32) -> Result<Tally, Refusal>
    requires { (p + length xs.now < 2 ^ 32) × Passed xs.now (header_of h) }
    ensures means { result ≡ shown (tally flatten_record) year (rest_walk p xs.now) }
    ensures within { Within (length xs.now) 0 result }
{
    let end = header::SIZE + h.metric as usize;
    let total = h.total as usize;
    let count = first_count(h.points, h.word) as usize;
    let marked = h.points == sheet::MARK;
    let m = parts::metric(
        &xs[header::SIZE..end],
        p + header::SIZE,
        count,
        h.subobjects,
        marked,
        h.reference,
    )?;
    let head = Tally {
        used: header::SIZE,
        numbers: row::WIDTH,
        elements: 0,
        bytes: 0,
    };
    let flag = h.reference.byte21 / 2 % 2 == 1;
    semantics(&xs[end..total], p + end, flag, head.and(m), year)
}

// Checks the record at the start of xs.
fn one_record(xs: &[u8], p: usize, year: u32) -> Result<Tally, Refusal>
    requires { p + length xs.now < 2 ^ 32 }
    ensures means { result ≡ shown (tally flatten_record) year (record_walk p xs.now) }
    ensures within { Within (length xs.now) 0 result }
{
    if xs.len() < header::SIZE {
        return refused(Reason::Short, p);
    }
    let h = header_at(xs, 0);
    check_header(h, p, xs.len(), year)?;
    rest(xs, p, h, year)
}

// Checks n records, one after another.
pub fn records(xs: &[u8], p: usize, n: u32, year: u32) -> Result<Tally, Refusal>
    requires { p + length xs.now < 2 ^ 32 }
    ensures means { result ≡ shown (tally (joined flatten_record)) year (times n record_walk p xs.now) }
    ensures within { Within (length xs.now) 0 result }
{
    let mut acc = Tally::none();
    for _ in 0..n {
        let at = acc.used;
        let z = one_record(&xs[at..], p + at, year)?;
        acc = acc.and(z);
    }
    Ok(acc)
}

#[derive(Clone, Copy)]
pub struct Walked {
    pub counted: Result<Tally, Refusal>,
    pub sum: u64,
}

// What was counted, with the sum carried on to the last byte.
fn with_sum(xs: &[u8], summed: Summed, counted: Result<Tally, Refusal>) -> Walked
    requires { SummedIn xs.now summed × (length xs.now ≤ limit) }
    ensures { (result.counted ≡ counted) × (result.sum ≡ total xs.now) × (result.sum ≤ 255 * length xs.now) }
{
    Walked {
        counted,
        sum: sum_past(xs, summed, xs.len()).sum,
    }
}

// How many records are checked behind the sum before it goes on.
const BATCH: u32 = 64;

// So many records, and the sum of all bytes, in one pass: the sum goes ahead, and a batch of records is checked behind it while their
// bytes are still near. What is left is counted down, since the last batch may be smaller: no range counts the batches.
pub fn walk(xs: &[u8], p: usize, n: u32, year: u32) -> Walked
    requires { (p + length xs.now < 2 ^ 32) × (length xs.now ≤ limit) }
    ensures means { result.counted ≡ shown (tally (joined flatten_record)) year (times n record_walk p xs.now) }
    ensures sums { (result.sum ≡ total xs.now) × (result.sum ≤ 255 * length xs.now) }
{
    let mut left = n;
    let mut summed = Summed { sum: 0, to: 0 };
    let mut acc = Tally::none();
    while 0 < left {
        let at = acc.used;
        summed = sum_past(xs, summed, at);
        let some = left.min(BATCH);
        match records(&xs[at..], p + at, some, year) {
            Ok(z) => {
                acc = acc.and(z);
            }
            Err(r) => {
                return with_sum(xs, summed, Err(r));
            }
        }
        left -= some;
    }
    with_sum(xs, summed, Ok(acc))
}
