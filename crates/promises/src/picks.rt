// The index as programs, so that nothing is asked of what is lent but its type. (02, requests 3 and 7)
ghost use Rattle.std.specs.Prelude.{true, List, ◌↔◌, ◌≡◌, ℕ, ◌≤◌, length};
ghost use Rattle.layout.specs.Answers.Calls.{reading, roomed, lent as lent_by};
ghost use Rattle.layout.specs.Answers.Lent.{the_given};
ghost use Rattle.layout.specs.Index.Blocks.{encode_index, FineEntries};
ghost use Rattle.layout.specs.Index.Selecting.{index_of, picked};
ghost use Rattle.layout.specs.Sheet.{Sheet};
ghost use Rattle.layout.specs.Walk.{given};

use crate::lent;
use fields::numbers::part;
use index::{files, sheets};
use layout::{BlockKind, Entry};
use meanings::setting::Setting;

// True exactly where the bytes are the blocks of some entries, all of one kind.
pub fn keeps_blocks(index: &[u8]) -> bool
    ensures { (result ≡ true) ↔ ((kind : BlockKind) × (es : List Entry) × FineEntries kind es × (encode_index kind es ≡ index.now)) }
{
    lent::bytes(index);
    files::check(index).is_ok()
}

// Builds the index of a sheet at a setting, and selects by a code through it. True exactly where the index was built, which is where the sheet is
// accepted and there is room; and where the sheet is accepted at another setting too, what was selected is what the sheet itself gives there.
pub fn select_built(
    s: &[u8],
    setting: Setting,
    other: Setting,
    code: u32,
    index: &mut [u8],
    picks: &mut [u64],
) -> bool
    ensures built { (result ≡ true) ↔ ((xs : List ℕ) × (index_of setting.year s.now ≡ given xs) × (length xs ≤ length index.old)) }
    ensures picked { result ≡ true → (t : Sheet) → reading other.year s.now ≡ given t
        → picks.new ≡ lent_by the_given (roomed (length picks.old) (picked other.year s.now code)) picks.old }
{
    lent::bytes(s);
    let Ok(n) = sheets::build(s, setting, index) else {
        return false;
    };
    // Whether there is room for what is selected is part of what is promised.
    let _ = files::select(part(index, 0, n), code, picks);
    true
}
