// What a record's reference bytes say of its parts: element size, floating, three dimensions, text in the metric.
ghost use Rattle.std.specs.Prelude.{true, false, ◌≡◌, ◌*◌, ◌≤◌, ◌<◌, ◌^◌};
ghost use Rattle.fields.specs.References.{reference_by};
ghost use Rattle.fields.specs.Shapes.{shape_of, dimensions, point_of, loop_of};
ghost use Rattle.layout.specs.Shared.Row.{reference_of};

use crate::records::ReferenceBytes;

#[derive(Clone, Copy)]
pub struct Shape {
    pub size: bool,
    pub float: bool,
    pub three: bool,
    pub text: bool,
}

pub fn shape_of(b: ReferenceBytes) -> Shape
    ensures { result ≡ shape_of (reference_by b) }
{
    Shape {
        size: b.byte21 / 4 % 2 == 1,
        float: b.byte22 / 4 % 2 == 1,
        three: b.byte22 / 2 % 2 == 1,
        text: b.byte22 / 8 % 2 == 1,
    }
}

// The same by the three bytes as one number, as the table has them.
pub fn shape_in(reference: u64) -> Shape
    ensures { result ≡ shape_of (reference_of reference) }
{
    shape_of(ReferenceBytes::of(reference))
}

// How many elements so many points have.
pub fn elements_of(count: usize, three: bool) -> usize
    requires { count < 2 ^ 32 }
    ensures { (result ≡ count * dimensions three) × (result < 2 ^ 34) }
{
    if three {
        return count * 3;
    }
    count * 2
}

// How many bytes a point has: "twice the planar element plus the height, which is nothing in two dimensions." (02, request 4)
// In two dimensions no height is added, not even 0, which is a little faster (docs/PERFORMANCE.md).
pub fn point_size(s: Shape) -> usize
    ensures { (result ≡ point_of s) × (result ≤ 24) }
{
    // "2 bytes (integer) or 4 (floating) with size bit 0, and 4 or 8 with size bit 1"
    let integer = if s.size { 4 } else { 2 };
    let planar = if s.float { 2 * integer } else { integer };
    if s.three {
        // "8 bytes where planar elements are 8, else 4"
        let height = if planar == 8 { 8 } else { 4 };
        return 2 * planar + height;
    }
    2 * planar
}

// The loop that serves a shape's elements: one for each width, and one for points of two elements of two bytes and a height of four, the one
// kind of point whose elements are not all of one width. An enum and no closure, since reader and writer run loops of their own by the same choice.
#[derive(Clone, Copy)]
pub enum Loop {
    Two,
    Four,
    Eight,
    Points,
}

pub fn loop_of(s: Shape) -> Loop
    ensures { result ≡ loop_of s }
{
    match (s.size, s.float, s.three) {
        (true, true, _) => Loop::Eight,
        (true, false, _) | (false, true, _) => Loop::Four,
        (false, false, true) => Loop::Points,
        (false, false, false) => Loop::Two,
    }
}
