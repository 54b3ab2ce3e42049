// The parts of a record's metric: the first part and the subobjects, each of points and perhaps a text.
ghost use Rattle.std.specs.Prelude.{true, ◌≡◌, ℕ, ◌+◌, ◌≤◌, ◌<◌, ◌^◌, length};
ghost use Rattle.fields.specs.References.{reference_by};
ghost use Rattle.reading_check.specs.Tally.{shown, tally, tally_of, text_table, metric_table, Within};
ghost use Rattle.layout.specs.Reading.Parts.{text_walk, part_walk, subobject_walk, metric_walk};
ghost use Rattle.layout.specs.Walk.{times, pair as pair_of};
ghost use Rattle.layout.specs.Writing.Tables.{flatten_part, joined};

use crate::tally::Tally;
use fields::checks::refused;
use fields::records::ReferenceBytes;
use fields::{numbers, shapes};
use layout::refusals::Reason;
use layout::{Refusal, row, subobject};

// Checks a text: a length byte, so many bytes, and a closing zero.
fn text_of(xs: &[u8], p: usize) -> Result<Tally, Refusal>
    requires { p + length xs.now < 2 ^ 32 }
    ensures means { (y : ℕ) → result ≡ shown (tally text_table) y (text_walk true p xs.now) }
    ensures within { Within (length xs.now) 0 result }
{
    if xs.len() < 1 {
        return refused(Reason::Length, p);
    }
    let n = numbers::at::<u8>(xs, 0) as usize;
    if xs.len() < n + 2 {
        return refused(Reason::Length, p);
    }
    if numbers::at::<u8>(xs, n + 1) != 0 {
        return refused(Reason::Text, p + (n + 1));
    }
    Ok(Tally {
        used: n + 2,
        numbers: 0,
        elements: 0,
        bytes: n,
    })
}

// Checks the text at the end of a part, if its record has texts.
pub fn text_end(xs: &[u8], p: usize, text: bool) -> Result<Tally, Refusal>
    requires { p + length xs.now < 2 ^ 32 }
    ensures means { (y : ℕ) → result ≡ shown (tally text_table) y (text_walk text p xs.now) }
    ensures within { Within (length xs.now) 0 result }
{
    if text {
        return text_of(xs, p);
    }
    Ok(Tally::none())
}

// Checks a part of count points and its text. The count is multiplied and never walked, so that any count is answered at once.
pub fn part(xs: &[u8], p: usize, count: usize, reference: ReferenceBytes) -> Result<Tally, Refusal>
    requires { (p + length xs.now < 2 ^ 32) × (count < 2 ^ 32) }
    ensures means { (y : ℕ) → result ≡ shown (tally flatten_part) y (part_walk (reference_by reference) count p xs.now) }
    ensures within { Within (length xs.now) 2 result }
{
    let s = shapes::shape_of(reference);
    let size = count * shapes::point_size(s);
    if xs.len() < size {
        return refused(Reason::Length, p);
    }
    let elements = shapes::elements_of(count, s.three);
    let t = text_end(&xs[size..], p + size, s.text)?;
    Ok(Tally {
        used: size + t.used,
        numbers: row::PART_WIDTH,
        elements,
        bytes: t.bytes,
    })
}

// A later part: N1 and N2, then as any part. Without the mark N1 must be 0.
pub fn subobject(
    xs: &[u8],
    p: usize,
    marked: bool,
    reference: ReferenceBytes,
) -> Result<Tally, Refusal>
    requires { p + length xs.now < 2 ^ 32 }
    ensures means { (y : ℕ) → result ≡ shown (tally flatten_part) y (subobject_walk (reference_by reference) marked p xs.now) }
    ensures within { Within (length xs.now) 0 result }
{
    if xs.len() < subobject::SIZE {
        return refused(Reason::Length, p);
    }
    let n1 = numbers::at::<u16>(xs, subobject::N1) as usize;
    let n2 = numbers::at::<u16>(xs, subobject::N2) as usize;
    if !(marked | (n1 == 0)) {
        return refused(Reason::Count, p);
    }
    let t = part(
        &xs[subobject::SIZE..],
        p + subobject::SIZE,
        n2 + subobject::UPPER * n1,
        reference,
    )?;
    Ok(Tally {
        used: subobject::SIZE + t.used,
        ..t
    })
}

// Checks n subobjects, one after another.
pub fn subobjects(
    xs: &[u8],
    p: usize,
    n: u16,
    marked: bool,
    reference: ReferenceBytes,
) -> Result<Tally, Refusal>
    requires { p + length xs.now < 2 ^ 32 }
    ensures means { (y : ℕ) → result ≡ shown (tally (joined flatten_part)) y
        (times n (subobject_walk (reference_by reference) marked) p xs.now) }
    ensures within { Within (length xs.now) 0 result }
{
    let mut acc = Tally::none();
    for _ in 0..n {
        let at = acc.used;
        let z = subobject(&xs[at..], p + at, marked, reference)?;
        acc = acc.and(z);
    }
    Ok(acc)
}

// Checks the first part, and the n subobjects after it.
fn pair(
    xs: &[u8],
    p: usize,
    count: usize,
    n: u16,
    marked: bool,
    reference: ReferenceBytes,
) -> Result<Tally, Refusal>
    requires { (p + length xs.now < 2 ^ 32) × (count < 2 ^ 32) }
    ensures means { (y : ℕ) → result ≡ shown (tally metric_table) y
        (pair_of (part_walk (reference_by reference) count)
        (times n (subobject_walk (reference_by reference) marked)) p xs.now) }
    ensures within { Within (length xs.now) 2 result }
{
    let first = part(xs, p, count, reference)?;
    let at = first.used;
    let more = subobjects(&xs[at..], p + at, n, marked, reference)?;
    Ok(first.and(more))
}

// Checks the metric of a record, whose bytes are xs: its parts have to fill it.
pub fn metric(
    xs: &[u8],
    p: usize,
    count: usize,
    n: u16,
    marked: bool,
    reference: ReferenceBytes,
) -> Result<Tally, Refusal>
    requires { (p + length xs.now < 2 ^ 32) × (count < 2 ^ 32) }
    ensures means { (y : ℕ) → result ≡ shown (λ v. tally_of (length xs.now) (metric_table v)) y
        (metric_walk (reference_by reference) marked count n p xs.now) }
    ensures within { Within (length xs.now) 2 result }
{
    let all = pair(xs, p, count, n, marked, reference)?;
    if all.used < xs.len() {
        return refused(Reason::Length, p + all.used);
    }
    Ok(all)
}
