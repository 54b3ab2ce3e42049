// The header of a record, taken apart, and the checks on its identifier and total length: every reader of a record asks here. (01, Record)
ghost use Rattle.std.specs.Prelude.{◌≡◌, ℕ, ◌+◌, ◌≤◌, ◌<◌, ◌^◌, length, drop};
ghost use Rattle.fields.specs.Headers.{header_of};
ghost use Rattle.fields.specs.Checks.{checked};
ghost use Rattle.layout.specs.Fields.Header as Field;
ghost use Rattle.layout.specs.Reading.Records.{header_in, total_checks};

use crate::checks::demand;
use crate::numbers;
use crate::records::ReferenceBytes;
use layout::refusals::Reason;
use layout::{Refusal, header};

#[derive(Clone, Copy)]
pub struct Header {
    pub identifier: u32,
    pub total: u32,
    pub metric: u32,
    pub code: u32,
    pub in_group: u16,
    pub group: u16,
    pub reference: ReferenceBytes,
    pub generalisation: u8,
    pub word: u32,
    pub subobjects: u16,
    pub points: u16,
}

// The header of the record that starts at a place.
pub fn header_at(xs: &[u8], at: usize) -> Header
    requires { at + Field.size ≤ length xs.now }
    ensures { header_of result ≡ header_in (drop at xs.now) }
{
    Header {
        identifier: numbers::at::<u32>(xs, at + header::IDENTIFIER),
        total: numbers::at::<u32>(xs, at + header::TOTAL),
        metric: numbers::at::<u32>(xs, at + header::METRIC),
        code: numbers::at::<u32>(xs, at + header::CODE),
        in_group: numbers::at::<u16>(xs, at + header::IN_GROUP),
        group: numbers::at::<u16>(xs, at + header::GROUP),
        reference: ReferenceBytes {
            byte20: numbers::at::<u8>(xs, at + header::BYTE20),
            byte21: numbers::at::<u8>(xs, at + header::BYTE21),
            byte22: numbers::at::<u8>(xs, at + header::BYTE22),
        },
        generalisation: numbers::at::<u8>(xs, at + header::GENERALISATION),
        word: numbers::at::<u32>(xs, at + header::WORD),
        subobjects: numbers::at::<u16>(xs, at + header::SUBOBJECTS),
        points: numbers::at::<u16>(xs, at + header::POINTS),
    }
}

// The checks on identifier and total length of a header at p, with so many bytes left from there on.
#[tactic(auto, unfolding(crate::specs::Headers::header_of))]
pub fn total_checks(h: Header, p: usize, left: usize) -> Result<(), Refusal>
    requires { p < 2 ^ 32 }
    ensures { (y : ℕ) → result ≡ checked y p (total_checks left (header_of h)) }
{
    demand(
        h.identifier == header::IDENTIFIER_IS,
        Reason::NotSxf,
        p + header::IDENTIFIER,
    )?;
    demand(
        header::SIZE_U32 <= h.total,
        Reason::Length,
        p + header::TOTAL,
    )?;
    let total = h.total as usize;
    demand(total <= left, Reason::Short, p + header::TOTAL)
}
