// Where pass 1 stands in the three slices.
ghost use Rattle.std.specs.Prelude.{◌≡◌, ◌+◌, ◌≤◌, ◌<◌, ◌^◌};
ghost use Rattle.layout.specs.Fields.{limit};
ghost use Rattle.writing_check.specs.Places.{capped};

use layout::sheet;

// The index of the next number, the places in the two pools, and how many bytes the records have so far: at most one more than the
// limit, so that no sum of lengths wraps. It is no `Cursor`, which has no length that stops.
#[derive(Clone, Copy)]
pub struct Places {
    pub number: usize,
    pub element: usize,
    pub byte: usize,
    pub length: usize,
}

// A length with so many bytes added, and not counted past the limit and one.
pub fn longer(so_far: usize, more: usize) -> usize
    requires { (so_far ≤ limit + 1) × (more < 2 ^ 60) }
    ensures { result ≡ capped (so_far + more) }
{
    let sum = so_far + more;
    if sum <= sheet::LIMIT {
        return sum;
    }
    sheet::PAST_LIMIT
}
