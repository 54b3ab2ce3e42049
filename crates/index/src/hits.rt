// What an entry gives, three numbers if it has the code that is asked for, else none; and the hits among entries, of an index or of a sheet alike.
ghost use Rattle.std.specs.Prelude.{[], ◌∷◌, ◌≡◌, ◌+◌, ◌≤◌, leb, length};
ghost use Rattle.std.proofs.lemmas.List.Edits.{sets};
ghost use Rattle.layout.specs.Answers.Calls.{in_room, lent};
ghost use Rattle.layout.specs.Answers.Enums.{written_of};
ghost use Rattle.layout.specs.Answers.Lent.{the_given};
ghost use Rattle.layout.specs.Index.Selecting.{each, pick_entry};

use crate::listed::Entries;
use fields::checks::refused;
use layout::refusals::Reason;
use layout::{Entry, Refusal, block};

// Puts three numbers, each by a store of its own: a row that is copied as a slice was a quarter slower for `files::read`.
pub fn put_row(out: &mut [u64], w: usize, a: u64, b: u64, c: u64)
    requires { w + 3 ≤ length out.old }
    ensures { out.new ≡ sets out.old w (a ∷ b ∷ c ∷ []) }
{
    out[w] = a;
    out[w + 1] = b;
    out[w + 2] = c;
}

// How many numbers entry `number` gives for a code. (`Entry` is a type of `layout`, so this and `put_hit` are functions.)
fn hit_size(e: Entry, number: usize, code: u32) -> usize
    ensures { (result ≡ length (pick_entry code number e)) × (result ≤ 3) }
{
    if e.code == code {
        return block::ROW_WIDTH;
    }
    0
}

// Writes them at w, and answers where those of the next entry go.
fn put_hit(e: Entry, number: usize, code: u32, picks: &mut [u64], w: usize) -> usize
    requires { w + length (pick_entry code number e) ≤ length picks.old }
    ensures { (result ≡ w + length (pick_entry code number e)) × (picks.new ≡ sets picks.old w (pick_entry code number e)) }
{
    if e.code == code {
        put_row(
            picks,
            w,
            number as u64,
            e.place as u64,
            e.localisation as u64,
        );
        return w + block::ROW_WIDTH;
    }
    w
}

// How many numbers the hits among the entries are.
fn count_hits<E: Entries>(entries: E, code: u32) -> usize
    requires { E.stand entries }
    ensures { result ≡ length (each (pick_entry code) 0 (E.left entries)) }
{
    let mut n: usize = 0;
    let mut rest = entries;
    let count = entries.count();
    for i in 0..count {
        n += hit_size(rest.next(), i, code);
    }
    n
}

// Whether they fit a lent slice of so many numbers. Where three for each of the entries fit, they need not be counted.
fn have_room<E: Entries>(entries: E, code: u32, room: usize) -> bool
    requires { E.stand entries }
    ensures { result ≡ leb (length (each (pick_entry code) 0 (E.left entries))) room }
{
    if block::ROW_WIDTH * entries.count() <= room {
        return true;
    }
    count_hits(entries, code) <= room
}

// Puts them, and tells how many numbers they are.
fn put_hits<E: Entries>(entries: E, code: u32, picks: &mut [u64]) -> usize
    requires { E.stand entries × (length (each (pick_entry code) 0 (E.left entries)) ≤ length picks.old) }
    ensures counted { result ≡ length (each (pick_entry code) 0 (E.left entries)) }
    ensures written { picks.new ≡ sets picks.old 0 (each (pick_entry code) 0 (E.left entries)) }
{
    let mut w: usize = 0;
    let mut rest = entries;
    let count = entries.count();
    for i in 0..count {
        w = put_hit(rest.next(), i, code, picks, w);
    }
    w
}

// The hits among the entries, if there is room.
pub fn select_in<E: Entries>(entries: E, code: u32, picks: &mut [u64]) -> Result<usize, Refusal>
    requires { E.stand entries }
    ensures answers { result ≡ written_of (in_room (length picks.old) (each (pick_entry code) 0 (E.left entries))) }
    ensures written { picks.new ≡ lent the_given (in_room (length picks.old) (each (pick_entry code) 0 (E.left entries))) picks.old }
{
    if !have_room(entries, code, picks.len()) {
        return refused(Reason::Room, 0);
    }
    Ok(put_hits(entries, code, picks))
}
