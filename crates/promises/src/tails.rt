// The cleared sheet c of an accepted sheet s is read as s is, all clean. (02, 6.) Nothing is asked of the slices but their type.
ghost use Rattle.std.specs.Prelude.{◌≡◌};
ghost use Rattle.layout.specs.Answers.Calls.{and_then, reading, in_rooms, lent as lent_by};
ghost use Rattle.layout.specs.Answers.Enums.{checked_of, head_at};
ghost use Rattle.layout.specs.Answers.Lent.{rooms, the_numbers, the_elements, the_bytes};
ghost use Rattle.layout.specs.Layout.Cleared.{cleared};
ghost use Rattle.layout.specs.Shared.Tails.{clean_tails, clean_of};
ghost use Rattle.layout.specs.Sheet.{Sheet};
ghost use Rattle.layout.specs.Walk.{given};
ghost use Rattle.layout.specs.Writing.Tables.{flatten};

use crate::lent;
use layout::{HeadAt, Refusal, Sizes};
use meanings::setting::Setting;
use reading::heads::head_of;
use reading::sheets::unfold;

// Its head has the same lengths and scale, and four clean text fields.
pub fn head_cleared(s: &[u8], c: &[u8], setting: Setting) -> Result<HeadAt, Refusal>
    ensures { (u : Sheet) → reading setting.year s.now ≡ given u → c.now ≡ cleared s.now
        → result ≡ Ok (head_at u.head (clean_tails u.head)) }
{
    lent::bytes(s);
    head_of(c, setting)
}

// Its table is the same.
pub fn unfold_cleared(
    s: &[u8],
    c: &[u8],
    setting: Setting,
    table: &mut [u64],
    elements: &mut [u64],
    bytes: &mut [u8],
) -> Result<Sizes, Refusal>
    ensures { (u : Sheet) → reading setting.year s.now ≡ given u → c.now ≡ cleared s.now
        → (result ≡ checked_of (and_then (in_rooms (rooms table.old elements.old bytes.old) (flatten u.records))
        (λ _. given (clean_of u))))
        × (table.new ≡ lent_by the_numbers
        (in_rooms (rooms table.old elements.old bytes.old) (flatten u.records)) table.old)
        × (elements.new ≡ lent_by the_elements
        (in_rooms (rooms table.old elements.old bytes.old) (flatten u.records)) elements.old)
        × (bytes.new ≡ lent_by the_bytes
        (in_rooms (rooms table.old elements.old bytes.old) (flatten u.records)) bytes.old) }
{
    lent::bytes(s);
    unfold(c, setting, table, elements, bytes)
}
