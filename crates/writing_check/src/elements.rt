// Whether the elements of a part fit their widths: one look for points of one width, one for points of two.
ghost use Rattle.std.specs.Prelude.{[], ◌∷◌, ◌≡◌, ℕ, ◌+◌, ◌*◌, ◌≤◌, ◌<◌, ◌^◌, length, drop, replicate};
ghost use Rattle.fields.specs.Shapes.{dimensions, widths_of};
ghost use Rattle.layout.specs.Bytes.{repeat};
ghost use Rattle.layout.specs.Writing.Parts.{fit_all};

use fields::shapes::Shape;
use layout::bounds;

// Whether each of the n elements that start at `at` is below a bound.
fn fit_all(elements: &[u64], at: usize, n: usize, bound: u64) -> bool
    requires { at + n ≤ length elements.now }
    ensures { (w : ℕ) → bound ≡ 256 ^ w → result ≡ fit_all (replicate n w) (drop at elements.now) }
{
    elements[at..at + n].iter().all(|e| *e < bound)
}

// So many points from at on, whose X and Y have two bytes and whose heights have four. A loop of its own: a point is three elements with two
// bounds, and one function for both would carry a list of bounds that it looks up at every element.
fn fit_points(elements: &[u64], at: usize, points: usize) -> bool
    requires { at + points * 3 ≤ length elements.now }
    ensures { result ≡ fit_all (repeat points (2 ∷ 2 ∷ 4 ∷ [])) (drop at elements.now) }
{
    for i in 0..points {
        let x = at + 3 * i;
        if bounds::TWO_BYTES <= elements[x] {
            return false;
        }
        if bounds::TWO_BYTES <= elements[x + 1] {
            return false;
        }
        if bounds::FOUR_BYTES <= elements[x + 2] {
            return false;
        }
    }
    true
}

// So many points from at on, n elements together. Any element fits eight bytes.
pub fn fit(elements: &[u64], at: usize, points: usize, n: usize, s: Shape) -> bool
    requires { (at + n ≤ length elements.now) × (n ≡ points * dimensions s.three) × (points < 2 ^ 32) }
    ensures { result ≡ fit_all (repeat points (widths_of s)) (drop at elements.now) }
{
    if s.size & s.float {
        return true;
    }
    if s.size | s.float {
        return fit_all(elements, at, n, bounds::FOUR_BYTES);
    }
    if s.three {
        return fit_points(elements, at, points);
    }
    fit_all(elements, at, n, bounds::TWO_BYTES)
}
