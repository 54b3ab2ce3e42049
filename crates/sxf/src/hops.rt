// The first record with a wanted code, and the frame of the sheet, without reading the sheet.
ghost use Rattle.std.specs.Prelude.{◌≡◌};
ghost use Rattle.layout.specs.Answers.Enums.{hopped_of};
ghost use Rattle.layout.specs.Answers.Structs.{hop_row};
ghost use Rattle.layout.specs.Hop.{hop, frame};

use crate::rows::{Answered, row_of};
use hop::sheets;
use layout::structs::SxfHop;
use layout::{Hit, Hop, Refusal};

#[tactic(auto, unfolding(layout::specs::Answers::Structs::hop_row))]
impl Answered for Hop {
    type Row = SxfHop;

    ghost as_row = { hop_row };

    fn given(self) -> SxfHop {
        let h = self.hit.unwrap_or(Hit {
            record: 0,
            place: 0,
            total: 0,
        });
        SxfHop {
            number: 0,
            place: 0,
            year: 0,
            found: u64::from(self.hit.is_some()),
            record: h.record as u64,
            at: h.place as u64,
            total: h.total as u64,
            looked: self.looked as u64,
        }
    }

    fn refused(r: Refusal) -> SxfHop {
        SxfHop {
            number: r.reason.number() as u64,
            place: r.place as u64,
            year: r.year as u64,
            found: 0,
            record: 0,
            at: 0,
            total: 0,
            looked: 0,
        }
    }
}

#[unsafe(no_mangle)]
pub extern "C" fn sxf_first_with(sheet: &[u8], code: u32) -> SxfHop
    ensures { result ≡ hop_row (hopped_of (hop code sheet.now)) }
{
    row_of(sheets::first_with(sheet, code))
}

#[unsafe(no_mangle)]
pub extern "C" fn sxf_frame_of(sheet: &[u8]) -> SxfHop
    ensures { result ≡ hop_row (hopped_of (frame sheet.now)) }
{
    row_of(sheets::frame_of(sheet))
}
