// An entry of an index: where it stands, and what it has.
ghost use Rattle.std.specs.Prelude.{◌≡◌, ◌+◌, ◌^◌, ◌≤◌, ◌<◌, length, drop};
ghost use Rattle.index.specs.Places.{place_of, entries_at, Holds};
ghost use Rattle.layout.specs.Bytes.{number_in};
ghost use Rattle.layout.specs.Fields.Entry as Field;
ghost use Rattle.layout.specs.Index.Reading.{entry_in};
ghost use Rattle.layout.specs.declared.BlockKind.TheVariants.{Old};

use crate::listed::Entries;
use fields::numbers;
use layout::{BlockKind, Entry, block};

// Where entry i stands. The kinds are told apart first, so that each divides by a number that the compiler knows.
fn place_of(kind: BlockKind, i: usize) -> usize
    requires { i < 2 ^ 32 }
    ensures { result ≡ place_of kind i }
{
    match kind {
        BlockKind::Old => {
            block::SIZE * (i / block::OLD_FULL)
                + (block::ENTRIES + block::OLD_ENTRY_SIZE * (i % block::OLD_FULL))
        }
        BlockKind::New => {
            block::SIZE * (i / block::FULL)
                + (block::ENTRIES + block::ENTRY_SIZE * (i % block::FULL))
        }
    }
}

// The place that an old entry has in three bytes.
fn old_place(index: &[u8], p: usize) -> usize
    requires { p + Field.size Old ≤ length index.now }
    ensures { result ≡ number_in (Field.place Old) (drop p index.now) }
{
    let low = numbers::at::<u16>(index, p + block::ENTRY_PLACE) as usize;
    let high = numbers::at::<u8>(index, p + block::OLD_PLACE_HIGH) as usize;
    low + block::OLD_HIGH_UNIT * high
}

// The entry at a place. The kinds have fields of other widths at other places, so each has its arm.
#[tactic(auto, using(crate::proofs::Laws::Places::old_size, crate::proofs::Laws::Places::new_size))]
fn entry_at(index: &[u8], kind: BlockKind, p: usize) -> Entry
    requires { p + Field.size kind ≤ length index.now }
    ensures { result ≡ entry_in kind (drop p index.now) }
{
    match kind {
        BlockKind::Old => Entry {
            code: numbers::at::<u32>(index, p + block::ENTRY_CODE),
            place: old_place(index, p),
            localisation: numbers::at::<u8>(index, p + block::OLD_LOCALISATION),
        },
        BlockKind::New => Entry {
            code: numbers::at::<u32>(index, p + block::ENTRY_CODE),
            place: numbers::at::<u32>(index, p + block::ENTRY_PLACE) as usize,
            localisation: numbers::at::<u8>(index, p + block::ENTRY_LOCALISATION),
        },
    }
}

// The entries of a good index from entry `from` on.
#[derive(Clone, Copy)]
pub struct IndexEntries<'a> {
    pub index: &'a [u8],
    pub kind: BlockKind,
    pub from: usize,
    pub count: usize,
}

impl<'a> Entries for IndexEntries<'a> {
    ghost left = { λ e. entries_at e.kind e.index.now e.from e.count };

    ghost stand = { λ e. Holds e.kind (e.from + e.count) e.index.now };

    fn count(&self) -> usize {
        self.count
    }

    fn next(&mut self) -> Entry {
        let e = entry_at(self.index, self.kind, place_of(self.kind, self.from));
        self.from += 1;
        self.count -= 1;
        e
    }
}
