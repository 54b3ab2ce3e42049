// How much was written, as C has it: of a sheet, a text that is turned, an index, or a selection.
ghost use Rattle.layout.specs.Answers.Structs.{written_row};

use crate::rows::Answered;
use layout::Refusal;
use layout::structs::SxfWritten;

#[tactic(auto, unfolding(layout::specs::Answers::Structs::written_row))]
impl Answered for usize {
    type Row = SxfWritten;

    ghost as_row = { written_row };

    fn given(self) -> SxfWritten {
        SxfWritten {
            number: 0,
            place: 0,
            year: 0,
            length: self as u64,
        }
    }

    fn refused(r: Refusal) -> SxfWritten {
        SxfWritten {
            number: r.reason.number() as u64,
            place: r.place as u64,
            year: r.year as u64,
            length: 0,
        }
    }
}
