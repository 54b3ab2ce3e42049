// The 2017 reader accepts a sheet exactly when it keeps the layout, and reads it as that layout says. (Demand 2.) Nothing is asked of the slice:
// its type says that it is bytes.
ghost use Rattle.std.specs.Prelude.{true, ◌↔◌, ◌≡◌, IfOk};
ghost use Rattle.layout.specs.Answers.Calls.{and_then, in_rooms, lent as lent_by};
ghost use Rattle.layout.specs.Answers.Enums.{checked_of, head_at};
ghost use Rattle.layout.specs.Answers.Lent.{rooms, the_numbers, the_elements, the_bytes};
ghost use Rattle.layout.specs.Layout.Encode.{encode};
ghost use Rattle.layout.specs.Layout.Fine.{Fine};
ghost use Rattle.layout.specs.Sheet.{Sheet};
ghost use Rattle.layout.specs.Walk.{given};
ghost use Rattle.layout.specs.Writing.Tables.{flatten};
ghost use Rattle.meanings.proofs.Same.{Keeps};
ghost use Rattle.meanings.specs.Places.{first_none};
ghost use Rattle.promises.specs.Corners.{stored_in};

use crate::lent;
use layout::{Corners, HeadAt, Refusal, Sizes};
use meanings::setting::Setting;
use reading::heads;
use reading::sheets::{check, unfold};

// True exactly where some fine sheet is written as these bytes.
pub fn keeps_layout(s: &[u8]) -> bool
    ensures { (result ≡ true) ↔ ((t : Sheet) × Fine t × (encode t ≡ s.now)) }
{
    lent::bytes(s);
    check(s, Setting::Y2017).is_ok()
}

// A sheet that keeps the layout is unfolded as that layout says, or refused with ROOM.
pub fn unfold_kept(
    s: &[u8],
    table: &mut [u64],
    elements: &mut [u64],
    bytes: &mut [u8],
) -> Result<Sizes, Refusal>
    ensures { (t : Sheet) → Fine t → encode t ≡ s.now
        → (result ≡ checked_of (and_then (in_rooms (rooms table.old elements.old bytes.old) (flatten t.records)) (λ _. given t)))
        × (table.new ≡ lent_by the_numbers
        (in_rooms (rooms table.old elements.old bytes.old) (flatten t.records)) table.old)
        × (elements.new ≡ lent_by the_elements
        (in_rooms (rooms table.old elements.old bytes.old) (flatten t.records)) elements.old)
        × (bytes.new ≡ lent_by the_bytes
        (in_rooms (rooms table.old elements.old bytes.old) (flatten t.records)) bytes.old) }
{
    lent::bytes(s);
    unfold(s, Setting::Y2017, table, elements, bytes)
}

// Its head is the one that the layout has written, and its text fields are clean where the tails that it has written are.
pub fn head_kept(s: &[u8]) -> Result<HeadAt, Refusal>
    ensures { (t : Sheet) → Fine t → encode t ≡ s.now → result ≡ Ok (head_at t.head t.tails) }
{
    lent::bytes(s);
    heads::head_of(s, Setting::Y2017)
}

// The corners that a sheet answers at any setting have the bits that stand in it.
pub fn corners_kept(s: &[u8], setting: Setting) -> Result<Corners, Refusal>
    ensures { IfOk result (λ c. Keeps (stored_in s.now) c (first_none (stored_in s.now))) }
{
    lent::bytes(s);
    heads::corners_of(s, setting)
}
