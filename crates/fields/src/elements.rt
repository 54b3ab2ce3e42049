// Elements of a width, both ways: from the bytes of a sheet to the pool (read) and from the pool to bytes (put). One tight loop each; which
// loop is chosen once a part. They count with `for` and zip no chunks with `iter_mut`, after which a proof knows no element of what was filled.
ghost use Rattle.std.specs.Prelude.{[], ◌∷◌, ◌≡◌, ◌+◌, ◌*◌, ◌≤◌, ◌<◌, ◌^◌, length, drop, take};
ghost use Rattle.std.proofs.lemmas.List.Edits.{sets};
ghost use Rattle.fields.specs.Shapes.{dimensions, widths_of, point_of};
ghost use Rattle.layout.specs.Bytes.{numbers, stored_all, repeat};

use crate::numbers::Little;
use crate::shapes::{Loop, Shape};
use crate::{numbers, shapes};

// Fills n elements of the pool, from w on, with the numbers of one width that start at `at`.
pub fn read<T: Little>(xs: &[u8], at: usize, n: usize, out: &mut [u64], w: usize)
    requires { (at + T.SIZE * n ≤ length xs.now) × (w + n ≤ length out.old) }
    ensures { out.new ≡ sets out.old w (numbers (repeat n (T.SIZE ∷ [])) (drop at xs.now)) }
{
    for i in 0..n {
        let x = numbers::at::<T>(xs, at + T::SIZE * i);
        out[w + i] = x.into();
    }
}

// n points of two elements of two bytes and a height of four: the one kind of point whose elements are not all of one width.
pub fn read_points(xs: &[u8], at: usize, n: usize, out: &mut [u64], w: usize)
    requires { (at + 8 * n ≤ length xs.now) × (w + 3 * n ≤ length out.old) }
    ensures { out.new ≡ sets out.old w (numbers (repeat n (2 ∷ 2 ∷ 4 ∷ [])) (drop at xs.now)) }
{
    for i in 0..n {
        let k = at + 8 * i;
        let x = numbers::at::<u16>(xs, k);
        let y = numbers::at::<u16>(xs, k + 2);
        let h = numbers::at::<u32>(xs, k + 4);
        let o = w + 3 * i;
        out[o] = x as u64;
        out[o + 1] = y as u64;
        out[o + 2] = h as u64;
    }
}

// Fills the elements of so many points of a shape, by the loop for their width.
pub fn read_elements(xs: &[u8], at: usize, count: usize, s: Shape, out: &mut [u64], w: usize)
    requires { (at + count * point_of s ≤ length xs.now) × (w + count * length (widths_of s) ≤ length out.old) × (count < 2 ^ 32) }
    ensures { out.new ≡ sets out.old w (numbers (repeat count (widths_of s)) (drop at xs.now)) }
{
    let n = shapes::elements_of(count, s.three);
    match shapes::loop_of(s) {
        Loop::Two => {
            read::<u16>(xs, at, n, out, w);
        }
        Loop::Four => {
            read::<u32>(xs, at, n, out, w);
        }
        Loop::Eight => {
            read::<u64>(xs, at, n, out, w);
        }
        Loop::Points => {
            read_points(xs, at, count, out, w);
        }
    }
}

// Writes the n elements of the pool that start at `at` with one width each, from w on. An element that is wider loses its upper bytes, so
// the caller has seen that all fit.
pub fn put<T: Little>(xs: &[u64], at: usize, n: usize, out: &mut [u8], w: usize)
    requires { (at + n ≤ length xs.now) × (w + T.SIZE * n ≤ length out.old) }
    ensures { out.new ≡ sets out.old w (stored_all (repeat n (T.SIZE ∷ [])) (drop at xs.now)) }
{
    for i in 0..n {
        numbers::put(out, w + T::SIZE * i, T::low(xs[at + i]));
    }
}

// n points of two elements of two bytes and a height of four: the one kind of point whose elements are not all of one width.
pub fn put_points(xs: &[u64], at: usize, n: usize, out: &mut [u8], w: usize)
    requires { (at + 3 * n ≤ length xs.now) × (w + 8 * n ≤ length out.old) }
    ensures { out.new ≡ sets out.old w (stored_all (repeat n (2 ∷ 2 ∷ 4 ∷ [])) (drop at xs.now)) }
{
    for i in 0..n {
        let k = at + 3 * i;
        let o = w + 8 * i;
        numbers::put(out, o, u16::low(xs[k]));
        numbers::put(out, o + 2, u16::low(xs[k + 1]));
        numbers::put(out, o + 4, u32::low(xs[k + 2]));
    }
}

// Writes the elements of so many points of a shape, by the loop for their width.
pub fn put_elements(xs: &[u64], at: usize, count: usize, s: Shape, out: &mut [u8], w: usize)
    requires { (at + count * dimensions s.three ≤ length xs.now) × (w + count * point_of s ≤ length out.old) × (count < 2 ^ 32) }
    ensures { out.new ≡ sets out.old w (stored_all (repeat count (widths_of s)) (drop at xs.now)) }
{
    let n = shapes::elements_of(count, s.three);
    match shapes::loop_of(s) {
        Loop::Two => {
            put::<u16>(xs, at, n, out, w);
        }
        Loop::Four => {
            put::<u32>(xs, at, n, out, w);
        }
        Loop::Eight => {
            put::<u64>(xs, at, n, out, w);
        }
        Loop::Points => {
            put_points(xs, at, count, out, w);
        }
    }
}
