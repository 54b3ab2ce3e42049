// What pass 1 goes through.
ghost use Rattle.std.specs.Prelude.{ℕ, ◌<◌, get_or};

// A record table that is lent: its numbers, and its pools of elements and of bytes.
#[derive(Clone, Copy)]
pub struct RecordTable<'a> {
    pub numbers: &'a [u64],
    pub elements: &'a [u64],
    pub bytes: &'a [u8],
    // so that no part of the pool has to be shown to be bytes again
    pub ghost is_bytes: { (i : ℕ) → get_or bytes.now i 0 < 256 },
}
