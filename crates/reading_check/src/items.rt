// The items of a record's semantics.
ghost use Rattle.std.specs.Prelude.{true, false, ◌≡◌, ℕ, ◌+◌, ◌*◌, ◌≤◌, ◌<◌, ◌^◌, length, drop};
ghost use Rattle.reading_check.specs.Items.{shape_of, Shaped, shape_checks, value_walk};
ghost use Rattle.reading_check.specs.Tally.{shown, tally, tally_of, Within};
ghost use Rattle.fields.specs.Checks.{checked};
ghost use Rattle.layout.specs.Bytes.{number};
ghost use Rattle.layout.specs.Fields.Item;
ghost use Rattle.layout.specs.Reading.Items.{item_walk, value_size};
ghost use Rattle.layout.specs.Shared.Types.{kind_of};
ghost use Rattle.layout.specs.Walk.{fill};
ghost use Rattle.layout.specs.Writing.Tables.{joined, flatten_item};

use crate::tally::Tally;
use fields::checks::{demand, feature, refused};
use fields::{numbers, texts};
use layout::refusals::Reason;
use layout::{Refusal, item, row, years};

// What follows from an item's type and scale byte: where its value starts, how long it is unless that stands before it, and how many
// closing zeros it has.
#[derive(Clone, Copy)]
pub struct Shape {
    pub known: bool,
    pub long: bool,
    pub good_scale: bool,
    pub at: usize,
    pub size: usize,
    pub closing: usize,
}

// The shape of a known type other than 128: its value starts after the head.
fn plain(good_scale: bool, size: usize, closing: usize) -> Shape
    ensures { result ≡ record { known = true; long = false; good_scale = good_scale; at = Item.size; size = size; closing = closing } }
{
    Shape {
        known: true,
        long: false,
        good_scale,
        at: item::SIZE,
        size,
        closing,
    }
}

fn shape_of(t: u8, scale: u8) -> Shape
    ensures { (result ≡ shape_of (kind_of t) scale) × (Item.size ≤ result.at) × (result.at ≤ Item.size + (Item.long_length).width)
        × (result.size ≤ 512) × (result.closing ≤ 2) }
{
    let n = scale as usize + 1;
    match t as u64 {
        item::NARROW | item::NARROW_126 => plain(true, n, 1),
        item::WIDE => plain(true, 2 * n, 2),
        item::INTEGER_1 | item::INTEGER_2 | item::INTEGER_4 => {
            plain(scale as u64 != item::INTEGER_NO_SCALE, t as usize, 0)
        }
        item::DOUBLE => plain(true, item::DOUBLE_LENGTH, 0),
        item::LONG => Shape {
            known: true,
            long: true,
            good_scale: scale as u64 == item::LONG_SCALE,
            at: item::LONG_SIZE,
            size: 0,
            closing: 2,
        },
        _ => Shape {
            known: false,
            ..plain(true, 0, 0)
        },
    }
}

// The checks on type and scale, and that the bytes before the value fit.
fn shape_checks(k: Shape, p: usize, n: usize, year: u32) -> Result<(), Refusal>
    requires { p < 2 ^ 32 }
    ensures { result ≡ checked year p (shape_checks k n) }
{
    demand(k.known, Reason::Semantic, p + item::TYPE)?;
    feature(k.long, years::TYPE_128, p + item::TYPE, year)?;
    demand(k.good_scale, Reason::Semantic, p + item::SCALE)?;
    demand(k.at <= n, Reason::Length, p)
}

// The length of the value: stored before it for type 128, else what the type and the scale byte say.
fn value_size(xs: &[u8], k: Shape) -> usize
    requires { Shaped xs.now k × (k.at ≤ length xs.now) }
    ensures { (result ≡ value_size xs.now) × (result < 2 ^ 32) }
{
    if k.long {
        return numbers::at::<u32>(xs, item::LONG_LENGTH) as usize;
    }
    k.size
}

// Checks the value: its length, that it fits, and its closing zeros.
fn value(xs: &[u8], p: usize, k: Shape) -> Result<Tally, Refusal>
    requires { (p + length xs.now < 2 ^ 32) × Shaped xs.now k × (k.at ≤ length xs.now) }
    ensures means { (y : ℕ) → result ≡ shown (tally flatten_item) y (value_walk p xs.now) }
    ensures within { Within (length xs.now) 0 result }
{
    let size = value_size(xs, k);
    let good = !k.long | ((size % 2 == 0) & (2 <= size));
    if !good {
        return refused(Reason::Semantic, p + item::LONG_LENGTH);
    }
    let used = k.at + size;
    if xs.len() < used {
        return refused(Reason::Length, p);
    }
    let end = used - k.closing;
    if !texts::all_zero(numbers::part(xs, end, k.closing)) {
        return refused(Reason::Text, p + end);
    }
    Ok(Tally {
        used,
        numbers: row::ITEM_WIDTH,
        elements: 0,
        bytes: size,
    })
}

// Checks the item at the start of xs.
pub fn item(xs: &[u8], p: usize, year: u32) -> Result<Tally, Refusal>
    requires { p + length xs.now < 2 ^ 32 }
    ensures means { result ≡ shown (tally flatten_item) year (item_walk p xs.now) }
    ensures within { Within (length xs.now) 0 result }
{
    if xs.len() < item::SIZE {
        return refused(Reason::Length, p);
    }
    let k = shape_of(
        numbers::at::<u8>(xs, item::TYPE),
        numbers::at::<u8>(xs, item::SCALE),
    );
    shape_checks(k, p, xs.len(), year)?;
    value(xs, p, k)
}

// Checks items until their bytes end. Each says itself where the next starts, so that no range counts them.
pub fn items(xs: &[u8], p: usize, year: u32) -> Result<Tally, Refusal>
    requires { p + length xs.now < 2 ^ 32 }
    ensures means { result ≡ shown (λ l. tally_of (length xs.now) (joined flatten_item l)) year (fill item_walk p xs.now) }
    ensures within { Within (length xs.now) 0 result }
{
    let mut acc = Tally::none();
    while acc.used < xs.len() {
        let at = acc.used;
        let z = item(&xs[at..], p + at, year)?;
        acc = acc.and(z);
    }
    Ok(acc)
}
