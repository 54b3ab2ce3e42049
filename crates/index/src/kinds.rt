// The two kinds of blocks. (02, request 7: "new blocks carry 56 entries of 9 bytes with a 4-byte place, and their two bytes before the sum hold 1 and 0
// in place of zeros. Old blocks stay readable, a file holds one kind only")
ghost use Rattle.std.specs.Prelude.{◌≡◌};
ghost use Rattle.layout.specs.Fields.Block;
ghost use Rattle.layout.specs.Fields.Entry as Field;
ghost use Rattle.layout.specs.Index.Reading.{file_kind};

use fields::numbers;
use layout::{BlockKind, block};

// The kinds are a type of `layout`, so what they have are functions here: a trait with one impl, for methods, would be no plainer.

// How many entries a full block has.
pub fn full(kind: BlockKind) -> usize
    ensures { result ≡ Block.full kind }
{
    match kind {
        BlockKind::Old => block::OLD_FULL,
        BlockKind::New => block::FULL,
    }
}

// How many bytes an entry has.
pub fn entry_size(kind: BlockKind) -> usize
    ensures { result ≡ Field.size kind }
{
    match kind {
        BlockKind::Old => block::OLD_ENTRY_SIZE,
        BlockKind::New => block::ENTRY_SIZE,
    }
}

// What the two bytes before the sum hold.
pub fn ending_is(kind: BlockKind) -> u16
    ensures { result ≡ Block.ending_is kind }
{
    match kind {
        BlockKind::Old => block::OLD_ENDING_IS,
        BlockKind::New => block::ENDING_IS,
    }
}

// The kind of a file, by its first block.
pub fn file_kind(index: &[u8]) -> BlockKind
    ensures { result ≡ file_kind index.now }
{
    if index.len() < block::SIZE {
        return BlockKind::Old;
    }
    if numbers::at::<u16>(index, block::ENDING) == block::ENDING_IS {
        return BlockKind::New;
    }
    BlockKind::Old
}
