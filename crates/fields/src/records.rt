// Numbers of a record's row that its header does not have as they stand. (01, Record; 02, request 2)
ghost use Rattle.std.specs.Prelude.{◌≡◌};
ghost use Rattle.fields.specs.References.{reference_by};
ghost use Rattle.layout.specs.Shared.Mark.{first_count, mark_of};
ghost use Rattle.layout.specs.Shared.Row.{reference_number, reference_of};

use layout::sheet;

// The first part's count of points: under the mark it is the word.
pub fn first_count(points: u16, word: u32) -> u32
    ensures { result ≡ first_count points word }
{
    if points == sheet::MARK {
        return word;
    }
    points as u32
}

// The mark as the table has it, by the points at +30.
pub fn mark_of(points: u16) -> u8
    ensures { result ≡ mark_of points }
{
    if points == sheet::MARK {
        return 1;
    }
    0
}

// The bytes 20 to 22 of a record.
#[derive(Clone, Copy)]
pub struct ReferenceBytes {
    pub byte20: u8,
    pub byte21: u8,
    pub byte22: u8,
}

impl ReferenceBytes {
    // The three bytes as one number, as the table has them.
    pub fn number(self) -> u32
        ensures { result ≡ reference_number (reference_by self) }
    {
        (self.byte20 as u32) + 256 * (self.byte21 as u32) + 65536 * (self.byte22 as u32)
    }

    // The other way: the three bytes of a number of the table. A number of more than three bytes loses its upper ones, so that it is no `From`.
    pub fn of(number: u64) -> ReferenceBytes
        ensures { reference_by result ≡ reference_of number }
    {
        ReferenceBytes {
            byte20: (number % 256) as u8,
            byte21: (number / 256 % 256) as u8,
            byte22: (number / 65536 % 256) as u8,
        }
    }
}
