// An index is checked, read, or asked for the records of a class code.
ghost use Rattle.std.specs.Prelude.{◌≡◌, ◌+◌, ◌*◌, ◌≤◌, IfOk, IfErr, length};
ghost use Rattle.std.proofs.lemmas.List.Edits.{sets};
ghost use Rattle.index.specs.Places.{entries_at, Holds};
ghost use Rattle.layout.specs.Answers.Calls.{in_room, roomed, lent};
ghost use Rattle.layout.specs.Answers.Enums.{written_of, indexed_of};
ghost use Rattle.layout.specs.Answers.Lent.{the_given};
ghost use Rattle.layout.specs.Index.Reading.{file_kind, entries_in};
ghost use Rattle.layout.specs.Index.Selecting.{each, entry_row, selected, entry_rows};
ghost use Rattle.layout.specs.Walk.{given, refused};

use crate::blocks::good_block;
use crate::entries::IndexEntries;
use crate::hits;
use crate::kinds::file_kind;
use crate::listed::Entries;
use fields::checks::refused;
use fields::numbers;
use layout::refusals::Reason;
use layout::{Entry, IndexSizes, Refusal, block};

// How many entries and blocks an index has, or which block is the first that is bad.
#[tactic(auto, using(crate::proofs::Laws::Checking::good_within, crate::proofs::Laws::Checking::good_few))]
pub fn check(index: &[u8]) -> Result<IndexSizes, Refusal>
    ensures { result ≡ indexed_of (file_kind index.now) (entries_in index.now) }
{
    let kind = file_kind(index);
    let mut at: usize = 0;
    let mut blocks: usize = 0;
    let mut entries: usize = 0;
    // The place, the number and the entries of blocks go on together, and the last block may be cut short: a `for` over pieces would be no plainer.
    while at < index.len() {
        if !good_block(index, kind, at, blocks) {
            return refused(Reason::BadBlock, at);
        }
        entries += numbers::at::<u16>(index, at + block::COUNT) as usize;
        at += block::SIZE;
        blocks += 1;
    }
    Ok(IndexSizes { entries, blocks })
}

// All entries of an index, if it is good.
fn entries_of(index: &[u8]) -> Result<IndexEntries<'_>, Refusal>
    ensures good { IfOk result (λ e. (entries_in index.now ≡ given (entries_at e.kind e.index.now e.from e.count))
        × Holds e.kind (e.from + e.count) e.index.now) }
    ensures bad { IfErr result (λ r. entries_in index.now ≡ refused r.reason r.place r.year) }
{
    let sizes = check(index)?;
    Ok(IndexEntries {
        index,
        kind: file_kind(index),
        from: 0,
        count: sizes.entries,
    })
}

// Three numbers for each record of a code: its number, place and localisation. The answer is how many numbers are written.
pub fn select(index: &[u8], code: u32, picks: &mut [u64]) -> Result<usize, Refusal>
    ensures answers { result ≡ written_of (roomed (length picks.old) (selected code index.now)) }
    ensures written { picks.new ≡ lent the_given (roomed (length picks.old) (selected code index.now))
        picks.old }
{
    let all = entries_of(index)?;
    hits::select_in(all, code, picks)
}

fn put_entry(e: Entry, entries: &mut [u64], w: usize)
    requires { w + 3 ≤ length entries.old }
    ensures { entries.new ≡ sets entries.old w (entry_row 0 e) }
{
    hits::put_row(
        entries,
        w,
        e.code as u64,
        e.place as u64,
        e.localisation as u64,
    );
}

fn put_entries<E: Entries>(listed: E, entries: &mut [u64])
    requires { E.stand listed × (3 * length (E.left listed) ≤ length entries.old) }
    ensures { entries.new ≡ sets entries.old 0 (each entry_row 0 (E.left listed)) }
{
    let mut rest = listed;
    let count = listed.count();
    for i in 0..count {
        put_entry(rest.next(), entries, block::ROW_WIDTH * i);
    }
}

fn read_in<E: Entries>(listed: E, entries: &mut [u64]) -> Result<usize, Refusal>
    requires { E.stand listed }
    ensures answers { result ≡ written_of (in_room (length entries.old) (each entry_row 0 (E.left listed))) }
    ensures written { entries.new ≡ lent the_given (in_room (length entries.old) (each entry_row 0 (E.left listed))) entries.old }
{
    let n = block::ROW_WIDTH * listed.count();
    if entries.len() < n {
        return refused(Reason::Room, 0);
    }
    put_entries(listed, entries);
    Ok(n)
}

// Three numbers for each entry: class code, place and localisation. The answer is how many numbers are written.
pub fn read(index: &[u8], entries: &mut [u64]) -> Result<usize, Refusal>
    ensures answers { result ≡ written_of (roomed (length entries.old) (entry_rows index.now)) }
    ensures written { entries.new ≡ lent the_given (roomed (length entries.old) (entry_rows index.now))
        entries.old }
{
    let all = entries_of(index)?;
    read_in(all, entries)
}
