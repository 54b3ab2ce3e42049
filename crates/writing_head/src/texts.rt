// What the writer is given for a head, besides the scale and the count.
ghost use Rattle.std.specs.Prelude.{ℕ, ◌<◌, get_or};

// Six byte strings, in the order of their places in the sheet: texts, the rest of the passport, and the descriptor's carried bytes.
#[derive(Clone, Copy)]
pub struct HeadTexts<'a> {
    pub date: &'a [u8],
    pub designation: &'a [u8],
    pub title: &'a [u8],
    pub rest: &'a [u8],
    pub designation2: &'a [u8],
    pub carried: &'a [u8],
    // so that none of them has to be shown to be bytes again
    pub ghost date_bytes: { (i : ℕ) → get_or date.now i 0 < 256 },
    pub ghost designation_bytes: { (i : ℕ) → get_or designation.now i 0 < 256 },
    pub ghost title_bytes: { (i : ℕ) → get_or title.now i 0 < 256 },
    pub ghost rest_bytes: { (i : ℕ) → get_or rest.now i 0 < 256 },
    pub ghost designation2_bytes: { (i : ℕ) → get_or designation2.now i 0 < 256 },
    pub ghost carried_bytes: { (i : ℕ) → get_or carried.now i 0 < 256 },
}
