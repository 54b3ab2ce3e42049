// Rows of the record table: the two numbers of a part, the four of an item, and the nine of a record.
ghost use Rattle.std.specs.Prelude.{[], ◌∷◌, ◌≡◌, ◌+◌, ◌≤◌, length};
ghost use Rattle.fields.specs.Headers.{header_of};
ghost use Rattle.reading_fill.specs.Records.{row_of};
ghost use Rattle.layout.specs.Shared.Row.{row_width, part_width, item_width};
ghost use Rattle.std.proofs.lemmas.List.Edits.{sets};

use fields::headers::Header;
use fields::records::mark_of;
use layout::row;

pub fn put_part(out: &mut [u64], w: usize, points: usize, text: usize)
    requires { w + part_width ≤ length out.old }
    ensures { out.new ≡ sets out.old w (points ∷ text ∷ []) }
{
    out[w] = points as u64;
    out[w + row::TEXT_LENGTH] = text as u64;
}

pub fn put_item(out: &mut [u64], w: usize, code: u16, kind: u8, scale: u8, value: usize)
    requires { w + item_width ≤ length out.old }
    ensures { out.new ≡ sets out.old w (code ∷ kind ∷ scale ∷ value ∷ []) }
{
    out[w] = code as u64;
    out[w + row::ITEM_TYPE] = kind as u64;
    out[w + row::ITEM_SCALE] = scale as u64;
    out[w + row::ITEM_LENGTH] = value as u64;
}

// The nine numbers of a record, by its header and its count of items.
pub fn put_record(out: &mut [u64], w: usize, h: Header, items: usize)
    requires { w + row_width ≤ length out.old }
    ensures { out.new ≡ sets out.old w (row_of (header_of h) items) }
{
    out[w] = h.code as u64;
    out[w + row::IN_GROUP] = h.in_group as u64;
    out[w + row::GROUP] = h.group as u64;
    out[w + row::REFERENCE] = h.reference.number() as u64;
    out[w + row::GENERALISATION] = h.generalisation as u64;
    out[w + row::WORD] = h.word as u64;
    out[w + row::PARTS] = 1 + (h.subobjects as u64);
    out[w + row::ITEMS] = items as u64;
    out[w + row::MARK] = mark_of(h.points) as u64;
}
