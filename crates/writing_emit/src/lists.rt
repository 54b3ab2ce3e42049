// The lists that are written.
ghost use Rattle.std.specs.Prelude.{◌≡◌, ◌≤◌, length, drop};

use fields::cursors::Cursor;

// A record table with its two pools, as they are lent to be written as bytes.
#[derive(Clone, Copy)]
pub struct Lists<'a> {
    pub numbers: &'a [u64],
    pub elements: &'a [u64],
    pub bytes: &'a [u8],
}

impl<'a> Lists<'a> {
    // The rows from the cursor on.
    pub fn rows(&self, c: Cursor) -> &'a [u64]
        requires { c.numbers ≤ length self.now.numbers.now }
        ensures { result.now ≡ drop c.numbers self.now.numbers.now }
    {
        &self.numbers[c.numbers..]
    }
}
