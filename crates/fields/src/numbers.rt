// Numbers of a width at a place, and parts of a slice as the definitions write them.
ghost use Rattle.std.specs.Prelude.{◌≡◌, ℕ, ◌+◌, ◌%◌, ◌^◌, ◌≤◌, length, drop, take};
ghost use Rattle.layout.specs.Bytes.{number, bytes};
ghost use Rattle.std.proofs.lemmas.List.Edits.{sets};

// A number of so many bytes, which stand lowest first. Each `impl` names its bytes one by one, since no array of a trait has `SIZE` elements.
pub trait Little: Copy + Into<u64> {
    ghost SIZE: { ℕ };

    ghost value: { Self → ℕ };

    const SIZE: usize;

    fn read(s: &[u8], p: usize) -> Self
        requires { p + SIZE ≤ length s.now }
        ensures { value result ≡ number SIZE (drop p s.now) };

    fn write(self, out: &mut [u8], w: usize)
        requires { w + SIZE ≤ length out.old }
        ensures { out.new ≡ sets out.old w (bytes SIZE (value self)) };

    // What of an element fits: a wider one loses its upper bytes.
    fn low(x: u64) -> Self
        ensures { value result ≡ x % 256 ^ SIZE };

    // An element of the pool is the same number.
    ghost widens: { (x : Self) (y : ℕ) → Self.converts x y → y ≡ value x };
}

impl Little for u8 {
    ghost SIZE = { 1 };

    ghost value = { λ x. x };

    ghost widens = { λ x y e. e };

    const SIZE: usize = 1;

    fn read(s: &[u8], p: usize) -> u8 {
        s[p]
    }

    fn write(self, out: &mut [u8], w: usize) {
        out[w] = self;
    }

    fn low(x: u64) -> u8 {
        (x % 256) as u8
    }
}

impl Little for u16 {
    ghost SIZE = { 2 };

    ghost value = { λ x. x };

    ghost widens = { λ x y e. e };

    const SIZE: usize = 2;

    fn read(s: &[u8], p: usize) -> u16 {
        u16::from_le_bytes([s[p], s[p + 1]])
    }

    fn write(self, out: &mut [u8], w: usize) {
        out[w..w + 2].copy_from_slice(&self.to_le_bytes());
    }

    fn low(x: u64) -> u16 {
        (x % 65536) as u16
    }
}

impl Little for u32 {
    ghost SIZE = { 4 };

    ghost value = { λ x. x };

    ghost widens = { λ x y e. e };

    const SIZE: usize = 4;

    fn read(s: &[u8], p: usize) -> u32 {
        u32::from_le_bytes([s[p], s[p + 1], s[p + 2], s[p + 3]])
    }

    fn write(self, out: &mut [u8], w: usize) {
        out[w..w + 4].copy_from_slice(&self.to_le_bytes());
    }

    fn low(x: u64) -> u32 {
        (x % 4294967296) as u32
    }
}

impl Little for u64 {
    ghost SIZE = { 8 };

    ghost value = { λ x. x };

    ghost widens = { λ x y e. e };

    const SIZE: usize = 8;

    fn read(s: &[u8], p: usize) -> u64 {
        u64::from_le_bytes([
            s[p],
            s[p + 1],
            s[p + 2],
            s[p + 3],
            s[p + 4],
            s[p + 5],
            s[p + 6],
            s[p + 7],
        ])
    }

    fn write(self, out: &mut [u8], w: usize) {
        out[w..w + 8].copy_from_slice(&self.to_le_bytes());
    }

    fn low(x: u64) -> u64 {
        x
    }
}

// The number that stands at p.
pub fn at<T: Little>(s: &[u8], p: usize) -> T
    requires { p + T.SIZE ≤ length s.now }
    ensures { T.value result ≡ number T.SIZE (drop p s.now) }
{
    T::read(s, p)
}

// Writes a number at w.
pub fn put<T: Little>(out: &mut [u8], w: usize, x: T)
    requires { w + T.SIZE ≤ length out.old }
    ensures { out.new ≡ sets out.old w (bytes T.SIZE (T.value x)) }
{
    x.write(out, w);
}

// The n bytes of s that start at p; and below, all bytes from p on. As functions they have a contract in the words of the definitions.
pub fn part(s: &[u8], p: usize, n: usize) -> &[u8]
    requires { p + n ≤ length s.now }
    ensures { result.now ≡ take n (drop p s.now) }
{
    &s[p..p + n]
}

pub fn rest(s: &[u8], p: usize) -> &[u8]
    requires { p ≤ length s.now }
    ensures { result.now ≡ drop p s.now }
{
    &s[p..]
}
