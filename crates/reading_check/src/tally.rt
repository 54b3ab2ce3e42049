// What is counted on the way.
ghost use Rattle.std.specs.Prelude.{◌≡◌};
ghost use Rattle.reading_check.specs.Tally.{none, add, Small};

// How many bytes of the sheet were used, and how many numbers, elements and bytes they give. It is no `Cursor`: counts are added, and
// places are not.
#[derive(Clone, Copy)]
pub struct Tally {
    pub used: usize,
    pub numbers: usize,
    pub elements: usize,
    pub bytes: usize,
}

impl Tally {
    pub fn none() -> Tally
        ensures { result ≡ none }
    {
        Tally {
            used: 0,
            numbers: 0,
            elements: 0,
            bytes: 0,
        }
    }

    // What two pieces count together.
    pub fn and(self, other: Tally) -> Tally
        requires { Small (add self other) }
        ensures { result ≡ add self other }
    {
        Tally {
            used: self.used + other.used,
            numbers: self.numbers + other.numbers,
            elements: self.elements + other.elements,
            bytes: self.bytes + other.bytes,
        }
    }
}
