// Bytes copied from slice to slice, one by one: `copy_from_slice` is a call of `memmove`, which the archive would then need from outside.
ghost use Rattle.std.specs.Prelude.{◌≡◌, ◌+◌, ◌≤◌, length, drop, take};
ghost use Rattle.std.proofs.lemmas.List.Edits.{sets};

// Copies the n bytes of xs that start at `at` to out, from w on.
pub fn put_bytes(xs: &[u8], at: usize, n: usize, out: &mut [u8], w: usize)
    requires { (at + n ≤ length xs.now) × (w + n ≤ length out.old) }
    ensures { out.new ≡ sets out.old w (take n (drop at xs.now)) }
{
    for i in 0..n {
        out[w + i] = xs[at + i];
    }
}
