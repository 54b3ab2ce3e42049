// The sum of a sheet: all its bytes, with the four at 12 counted as zero. Within the limit the whole sum has 34 bits, so it is added up in 64;
// "only its low 32 are kept" (02, request 7).
ghost use Rattle.std.specs.Prelude.{◌≡◌, ◌+◌, ◌*◌, ◌≤◌, ◌<◌, length, drop};
ghost use Rattle.fields.specs.Sums.{SummedIn};
ghost use Rattle.layout.specs.Bytes.{total, low32};
ghost use Rattle.layout.specs.Fields.Passport;
ghost use Rattle.layout.specs.Fields.{limit};
ghost use Rattle.layout.specs.Reading.Sheets.{sum_of};

use crate::numbers;
use layout::passport;

// How many bytes are summed at once: the compiler sums 64 by four instructions of 16 bytes each.
const BLOCK: usize = 64;

// How many bytes are added up in 32 bits, which hold 255 for each: with a sum of 64 bits the compiler would add them one by one.
const PIECE: usize = 16777216;

// How far the sum goes ahead of who reads behind it: so many bytes stay in near memory.
const STRETCH: usize = 131072;

// The sum of the few bytes that are left after the last block.
fn few(s: &[u8]) -> u32
    requires { length s.now ≤ 16777216 }
    ensures { (result ≡ total s.now) × (result ≤ 255 * length s.now) }
{
    let mut sum: u32 = 0;
    for byte in s {
        sum += *byte as u32;
    }
    sum
}

// The sum of one block: as `few` does it, with a length that the compiler knows, so that it sums by vectors.
fn block(s: &[u8; BLOCK]) -> u32
    ensures { (result ≡ total s.now) × (result ≤ 255 * 64) }
{
    let mut sum: u32 = 0;
    for byte in s {
        sum += *byte as u32;
    }
    sum
}

// The sum of one piece: block by block, and then the few that are left.
fn piece(s: &[u8]) -> u32
    requires { length s.now ≤ 16777216 }
    ensures { (result ≡ total s.now) × (result ≤ 255 * length s.now) }
{
    let (blocks, left) = s.as_chunks::<BLOCK>();
    let mut sum: u32 = 0;
    for bytes in blocks {
        sum += block(bytes);
    }
    sum + few(left)
}

// The sum of all bytes, piece by piece.
pub fn sum_of(s: &[u8]) -> u64
    requires { length s.now ≤ limit }
    ensures { (result ≡ total s.now) × (result ≤ 255 * length s.now) }
{
    let mut sum: u64 = 0;
    for bytes in s.chunks(PIECE) {
        sum += piece(bytes) as u64;
    }
    sum
}

// A sum that is not complete: the bytes before `to` add up to it.
#[derive(Clone, Copy)]
pub struct Summed {
    pub sum: u64,
    pub to: usize,
}

// Adds the next n bytes to the sum.
fn sum_on(s: &[u8], so_far: Summed, n: usize) -> Summed
    requires { SummedIn s.now so_far × (so_far.to + n ≤ length s.now) × (length s.now ≤ limit) }
    ensures { SummedIn s.now result × (result.to ≡ so_far.to + n) }
{
    Summed {
        sum: so_far.sum + sum_of(numbers::part(s, so_far.to, n)),
        to: so_far.to + n,
    }
}

// Adds bytes to the sum until it has passed a place by a stretch that stays in near memory, so that who reads on from that place finds the
// bytes there. Where fewer bytes are left, it is then complete.
pub fn sum_past(s: &[u8], so_far: Summed, at: usize) -> Summed
    requires { SummedIn s.now so_far × (at ≤ length s.now) × (length s.now ≤ limit) }
    ensures { SummedIn s.now result × (at ≤ result.to) }
{
    if at < so_far.to {
        return so_far;
    }
    let left = s.len() - so_far.to;
    let stretch = at - so_far.to + STRETCH;
    if stretch < left {
        return sum_on(s, so_far, stretch);
    }
    sum_on(s, so_far, left)
}

// The low 32 bits of a sum.
pub fn low(sum: u64) -> u32
    ensures { result ≡ low32 sum }
{
    (sum % passport::SUM_MODULUS) as u32
}

pub fn sheet_sum(s: &[u8]) -> u32
    requires { ((Passport.date).place ≤ length s.now) × (length s.now ≤ limit) }
    ensures { result ≡ sum_of s.now }
{
    let head = sum_of(numbers::part(s, 0, passport::SUM));
    let tail = sum_of(numbers::rest(s, passport::AFTER_SUM));
    low(head + tail)
}
