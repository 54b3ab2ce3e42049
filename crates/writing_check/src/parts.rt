// The parts of a record: points and text length each, with elements and a text in the pools.
ghost use Rattle.std.specs.Prelude.{List, ◌≡◌, ℕ, ◌+◌, ◌-◌, ◌*◌, ◌≤◌, ◌<◌, ◌^◌, length, drop};
ghost use Rattle.fields.specs.Checks.{checked};
ghost use Rattle.layout.specs.Fields.Subobject;
ghost use Rattle.layout.specs.Layout.Sizes.{sum_by, part_bytes, subobject_bytes};
ghost use Rattle.layout.specs.Shared.Mark.{good_first};
ghost use Rattle.layout.specs.Shared.Row.{reference_of, part_width};
ghost use Rattle.layout.specs.Walk.{answer, up_to};
ghost use Rattle.layout.specs.Writing.Parts.{first_rules, later_rules, take_part};
ghost use Rattle.layout.specs.Writing.Tables.{joined, many, flatten_part};
ghost use Rattle.writing_check.specs.Parts.{elements_by, text_by, pools_by, bytes_by, headed, pool_walk};
ghost use Rattle.writing_check.specs.Places.{lists, here, moved_of, At};

use crate::elements;
use crate::pieces::take_all;
use crate::places::{Places, longer};
use crate::record_table::RecordTable;
use fields::checks::demand;
use fields::shapes;
use fields::shapes::Shape;
use layout::refusals::Reason;
use layout::{Refusal, bounds, row, sheet, subobject};

// Whether a first count goes with the record's mark and the word at +24.
fn good_first(mark: u64, word: u64, points: u64) -> bool
    ensures { result ≡ good_first mark word points }
{
    if mark == 1 {
        return word == points;
    }
    points < sheet::MARK_U64
}

// The rules on the first part's points, beside the mark and the word at +24.
#[tactic(auto, unfolding(layout::specs::Writing::Parts::first_rules))]
fn first_rules(mark: u64, word: u64, points: u64, place: usize) -> Result<(), Refusal>
    ensures { (y : ℕ) → result ≡ checked y place (first_rules mark word points) }
{
    demand(
        points < bounds::FOUR_BYTES,
        Reason::Table,
        place + row::POINTS,
    )?;
    demand(
        good_first(mark, word, points),
        Reason::Count,
        place + row::POINTS,
    )
}

// The rules on a later part's points; marked says whether the record has the mark.
#[tactic(auto, unfolding(layout::specs::Writing::Parts::later_rules))]
fn later_rules(marked: bool, points: u64, place: usize) -> Result<(), Refusal>
    ensures { (y : ℕ) → result ≡ checked y place (later_rules marked points) }
{
    let narrow = points / subobject::UPPER_U64 == 0;
    demand(
        points < bounds::FOUR_BYTES,
        Reason::Table,
        place + row::POINTS,
    )?;
    demand(marked | narrow, Reason::Count, place + row::POINTS)
}

// The rules on the elements of a part: the pool has them all from `at` on, and none is too wide.
fn element_rules(
    elements: &[u64],
    at: usize,
    s: Shape,
    points: usize,
    place: usize,
) -> Result<(), Refusal>
    requires { (at ≤ length elements.now) × (points < 2 ^ 32) }
    ensures { (y : ℕ) → result ≡ checked y place (elements_by s points (length elements.now - at) (drop at elements.now)) }
{
    let n = shapes::elements_of(points, s.three);
    demand(n <= elements.len() - at, Reason::Table, place + row::POINTS)?;
    let fits = elements::fit(elements, at, points, n, s);
    demand(fits, Reason::Table, place + row::POINTS)
}

// The rules on the text length, with so many bytes left in the pool.
fn text_rules(s: Shape, size: u64, left: usize, place: usize) -> Result<(), Refusal>
    requires { place + part_width ≤ 2 ^ 64 }
    ensures { (y : ℕ) → result ≡ checked y place (text_by s size left) }
{
    let at = place + row::TEXT_LENGTH;
    demand(size < bounds::ONE_BYTE, Reason::Table, at)?;
    demand(s.text | (size == 0), Reason::Table, at)?;
    demand(size <= left as u64, Reason::Table, at)
}

// The rules on what a part takes from the two pools, at the places p.
#[tactic(auto, using(fields::proofs::Laws::Chain::checked_both))]
fn pool_rules(t: &RecordTable, p: Places, s: Shape, points: usize, size: u64) -> Result<(), Refusal>
    requires { At (lists t.now) p × (p.number + part_width ≤ length t.now.numbers.now) × (points < 2 ^ 32) }
    ensures { (y : ℕ) → result ≡ checked y p.number (pools_by s points size (length t.now.elements.now - p.element)
        (drop p.element t.now.elements.now) (length t.now.bytes.now - p.byte)) }
{
    element_rules(t.elements, p.element, s, points, p.number)?;
    text_rules(s, size, t.bytes.len() - p.byte, p.number)
}

// How many bytes a part has, beside a subobject's head.
fn part_length(s: Shape, points: usize, size: usize) -> usize
    requires { (points < 2 ^ 32) × (size < 256) }
    ensures { (result ≡ bytes_by s points size) × (result < 2 ^ 40) }
{
    let n = points * shapes::point_size(s);
    if s.text {
        return n + (2 + size);
    }
    n
}

// Takes what a part has in the two pools, once its points were let through; head is how many bytes stand before the points.
fn take_pools(
    t: &RecordTable,
    p: Places,
    reference: u64,
    points: u64,
    size: u64,
    head: usize,
) -> Result<Places, Refusal>
    requires { At (lists t.now) p × (p.number + part_width ≤ length t.now.numbers.now) × (points < 2 ^ 32) × (head ≤ Subobject.size) }
    ensures { (y : ℕ) → result ≡ moved_of flatten_part (headed head (reference_of reference)) p
        (answer (up_to y) (pool_walk (reference_of reference) points size p.number (here (lists t.now) p))) }
{
    let s = shapes::shape_in(reference);
    let count = points as usize;
    pool_rules(t, p, s, count, size)?;
    let size = size as usize;
    Ok(Places {
        number: p.number + row::PART_WIDTH,
        element: p.element + shapes::elements_of(count, s.three),
        byte: p.byte + size,
        length: longer(p.length, head + part_length(s, count, size)),
    })
}

// Takes the first part of a record with that mark and that word at +24.
pub fn take_first(
    t: &RecordTable,
    p: Places,
    reference: u64,
    mark: u64,
    word: u64,
) -> Result<Places, Refusal>
    requires { At (lists t.now) p × (p.number + part_width ≤ length t.now.numbers.now) }
    ensures { (y : ℕ) → result ≡ moved_of flatten_part (part_bytes (reference_of reference)) p
        (answer (up_to y) (take_part (reference_of reference) (first_rules mark word) p.number (here (lists t.now) p))) }
{
    let points = t.numbers[p.number];
    let size = t.numbers[p.number + row::TEXT_LENGTH];
    first_rules(mark, word, points, p.number)?;
    take_pools(t, p, reference, points, size, 0)
}

// Takes a later part, which has N1 and N2 before its points.
fn take_later(t: &RecordTable, p: Places, reference: u64, marked: bool) -> Result<Places, Refusal>
    requires { At (lists t.now) p × (p.number + part_width ≤ length t.now.numbers.now) }
    ensures { (y : ℕ) → result ≡ moved_of flatten_part (subobject_bytes (reference_of reference)) p
        (answer (up_to y) (take_part (reference_of reference) (later_rules marked) p.number (here (lists t.now) p))) }
{
    let points = t.numbers[p.number];
    let size = t.numbers[p.number + row::TEXT_LENGTH];
    later_rules(marked, points, p.number)?;
    take_pools(t, p, reference, points, size, subobject::SIZE)
}

// Takes n later parts, one after another.
pub fn take_laters(
    t: &RecordTable,
    p: Places,
    n: u64,
    reference: u64,
    marked: bool,
) -> Result<Places, Refusal>
    requires { At (lists t.now) p × (p.number + part_width * n ≤ length t.now.numbers.now) }
    ensures { (y : ℕ) → result ≡ moved_of (joined flatten_part) (sum_by (subobject_bytes (reference_of reference))) p
        (answer (up_to y) (many n part_width (take_part (reference_of reference) (later_rules marked)) p.number (here (lists t.now) p))) }
{
    take_all(n, p, |q| take_later(t, q, reference, marked))
}
