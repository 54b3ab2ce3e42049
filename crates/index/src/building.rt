// The blocks of a sheet's index are written: "new ones are always written in the new kind" (02, request 7).
ghost use Rattle.std.specs.Prelude.{◌≡◌, ◌+◌, ◌*◌, ◌^◌, ◌≤◌, ◌<◌, length};
ghost use Rattle.std.proofs.lemmas.List.Edits.{sets};
ghost use Rattle.index.specs.Hopped.{hopped, place_after};
ghost use Rattle.layout.specs.Bytes.{flat};
ghost use Rattle.layout.specs.Fields.Block;
ghost use Rattle.layout.specs.Fields.Entry as Field;
ghost use Rattle.layout.specs.Index.Blocks.{encode_entry, encode_unsummed, encode_block, encode_blocks, begun};
ghost use Rattle.layout.specs.Reading.Sheets.{start};
ghost use Rattle.layout.specs.declared.BlockKind.TheVariants.{New};
ghost use Rattle.reading.specs.Found.{Hops};

use crate::hops::{entry_of, next};
use fields::{numbers, sums, texts};
use layout::{Entry, block, sheet};

// A place within a sheet is below PLACES, so that nothing is cut.
fn put_entry(e: Entry, out: &mut [u8], w: usize)
    requires { w + Field.size New ≤ length out.old }
    ensures { out.new ≡ sets out.old w (encode_entry New e) }
{
    numbers::put::<u32>(out, w + block::ENTRY_CODE, e.code);
    numbers::put::<u32>(
        out,
        w + block::ENTRY_PLACE,
        (e.place % block::PLACES) as u32,
    );
    numbers::put::<u8>(out, w + block::ENTRY_LOCALISATION, e.localisation);
}

// The entries of n records, of which the first starts at a place. Tells where the next record starts.
fn put_entries(s: &[u8], first: usize, n: usize, out: &mut [u8], w: usize) -> usize
    requires { Hops n first s.now × (w + Field.size New * n ≤ length out.old) }
    ensures next { result ≡ place_after n first s.now }
    ensures written { out.new ≡ sets out.old w (flat (encode_entry New) (hopped n first s.now)) }
{
    let mut at = first;
    let mut to = w;
    for _ in 0..n {
        put_entry(entry_of(s, at), out, to);
        at = next(s, at);
        to += block::ENTRY_SIZE;
    }
    at
}

// Block `number` but for its sum. Its entries are those of n records, of which the first starts at a place; tells where the next one does.
fn put_unsummed(s: &[u8], first: usize, n: usize, number: usize, out: &mut [u8], w: usize) -> usize
    requires { Hops n first s.now × (n ≤ Block.full New) × (number < 256 ^ (Block.number).width) × (w + Block.size ≤ length out.old) }
    ensures next { result ≡ place_after n first s.now }
    ensures written { out.new ≡ sets out.old w (encode_unsummed New number (hopped n first s.now)) }
{
    numbers::put::<u16>(out, w + block::NUMBER, number as u16);
    numbers::put::<u16>(out, w + block::COUNT, n as u16);
    let after = put_entries(s, first, n, out, w + block::ENTRIES);
    let used = block::ENTRY_SIZE * n;
    texts::put_zeros(
        out,
        w + (block::ENTRIES + used),
        block::ENTRIES_WIDTH - used,
    );
    numbers::put::<u16>(out, w + block::ENDING, block::ENDING_IS);
    after
}

// The same block with its sum.
fn put_block(s: &[u8], first: usize, n: usize, number: usize, out: &mut [u8], w: usize) -> usize
    requires { Hops n first s.now × (n ≤ Block.full New) × (number < 256 ^ (Block.number).width) × (w + Block.size ≤ length out.old) }
    ensures next { result ≡ place_after n first s.now }
    ensures written { out.new ≡ sets out.old w (encode_block New number (hopped n first s.now)) }
{
    let after = put_unsummed(s, first, n, number, out, w);
    let sum = sums::sum_of(&out[w..w + block::SUM]) % block::MODULUS;
    numbers::put::<u16>(out, w + block::SUM, sum as u16);
    after
}

// All blocks of an accepted sheet of so many records.
pub fn put_blocks(s: &[u8], count: usize, out: &mut [u8])
    requires { Hops count start s.now × (begun (Block.full New) count ≤ 256 ^ (Block.number).width)
        × (Block.size * begun (Block.full New) count ≤ length out.old) }
    ensures { out.new ≡ sets out.old 0 (encode_blocks New (begun (Block.full New) count) 0 (hopped count start s.now)) }
{
    let mut at: usize = sheet::START;
    let mut left = count;
    let mut number: usize = 0;
    // What is left is counted down, and the last block is not full: a `for` over the blocks would have to be told their number, and is no plainer.
    while block::FULL < left {
        at = put_block(s, at, block::FULL, number, out, block::SIZE * number);
        left -= block::FULL;
        number += 1;
    }
    if 0 < left {
        put_block(s, at, left, number, out, block::SIZE * number);
    }
}
