// What the types of lent slices say, for every call that can be made. A theorem about contracts has lists of any numbers where a call has
// slices, and so asks for these facts (`Bytes`, `Typed`); a function that is lent a slice has them. These two do nothing else.
ghost use Rattle.layout.specs.Answers.Lent.{head_of};
ghost use Rattle.layout.specs.Bytes.{Bytes};
ghost use Rattle.laws.proofs.Writing.Sheets.{Typed};

use layout::{descriptor, passport};

fn nothing() {}

// A lent slice of bytes is bytes.
pub fn bytes(s: &[u8])
    ensures { Bytes s.now }
{
    nothing();
}

// What the writer is lent for a head is one by its types.
pub fn head(
    date: &[u8],
    designation: &[u8],
    scale: u32,
    title: &[u8],
    rest: &[u8; passport::REST_WIDTH],
    designation2: &[u8],
    carried: &[u8; descriptor::CARRIED_WIDTH],
)
    ensures { Typed (head_of date.now designation.now scale title.now rest.now
        designation2.now carried.now) }
{
    bytes(date);
    bytes(designation);
    bytes(title);
    bytes(rest);
    bytes(designation2);
    bytes(carried);
}
