// One block of an index is judged. (02, request 3: "18 BAD BLOCK [..] for a wrong length, number, count, filling or sum"; request 7: "18 also for mixed
// kinds")
ghost use Rattle.std.specs.Prelude.{◌≡◌, ◌+◌, ◌-◌, ◌*◌, ◌≤◌, length, drop, take};
ghost use Rattle.layout.specs.Bytes.{zeros};
ghost use Rattle.layout.specs.Fields.Block;
ghost use Rattle.layout.specs.Fields.Entry as Field;
ghost use Rattle.layout.specs.Index.Reading.{good_count, good_block};

use crate::kinds;
use fields::{numbers, sums, texts};
use layout::{BlockKind, block};

// "blocks are full except the last"
fn good_count(kind: BlockKind, last: bool, count: usize) -> bool
    ensures { result ≡ good_count kind last count }
{
    let full = kinds::full(kind);
    if last {
        return (1 <= count) & (count <= full);
    }
    count == full
}

// "unused entries are zero": the bytes that so many entries of the block at a place leave.
#[tactic(auto, using(crate::proofs::Laws::Blocks::room_at))]
fn unused_zero(index: &[u8], kind: BlockKind, at: usize, count: usize) -> bool
    requires { (at + Block.size ≤ length index.now) × (count ≤ Block.full kind) }
    ensures { result ≡ zeros (take ((Block.entries).width - Field.size kind * count)
        (drop (at + ((Block.entries).place + Field.size kind * count)) index.now)) }
{
    let used = kinds::entry_size(kind) * count;
    texts::all_zero(numbers::part(
        index,
        at + (block::ENTRIES + used),
        block::ENTRIES_WIDTH - used,
    ))
}

// Whether the block at a place is good as the block of a number in a file of a kind.
pub fn good_block(index: &[u8], kind: BlockKind, at: usize, number: usize) -> bool
    requires { at ≤ length index.now }
    ensures { result ≡ good_block kind number (drop at index.now) }
{
    let left = index.len() - at;
    if left < block::SIZE {
        return false;
    }
    let count = numbers::at::<u16>(index, at + block::COUNT) as usize;
    if !good_count(kind, left <= block::SIZE, count) {
        return false;
    }
    let numbered = (numbers::at::<u16>(index, at + block::NUMBER) as usize) == number;
    let filled = unused_zero(index, kind, at, count);
    let ended = numbers::at::<u16>(index, at + block::ENDING) == kinds::ending_is(kind);
    let sum = sums::sum_of(numbers::part(index, at, block::SUM)) % block::MODULUS;
    let summed = (numbers::at::<u16>(index, at + block::SUM) as u64) == sum;
    ((numbered & filled) & ended) & summed
}
