// Texts and zeros.
ghost use Rattle.std.specs.Prelude.{◌≡◌, length, replicate, ◌+◌, ◌<◌, ◌≤◌};
ghost use Rattle.fields.specs.Texts.{text_at};
ghost use Rattle.layout.specs.Bytes.{field, zeros};
ghost use Rattle.layout.specs.Shared.Texts.{text_of, is_text_field, padded};
ghost use Rattle.std.proofs.lemmas.List.Edits.{sets};

use crate::{copies, numbers};
use layout::TextAt;

// How many bytes stand before the first zero.
pub fn text_length(s: &[u8]) -> usize
    ensures { result ≡ length (text_of s.now) }
{
    s.iter().position(|byte| *byte == 0).unwrap_or(s.len())
}

pub fn all_zero(s: &[u8]) -> bool
    ensures { result ≡ zeros s.now }
{
    s.iter().all(|byte| *byte == 0)
}

// The field has a zero.
pub fn is_text_field(s: &[u8]) -> bool
    ensures { result ≡ is_text_field s.now }
{
    text_length(s) != s.len()
}

// How long the text of a field is, and whether its tail is clean.
pub fn text_at(s: &[u8]) -> TextAt
    ensures { result ≡ text_at s.now }
{
    let length = text_length(s);
    // The zero that ends the text is zero too, so that the look may start there; without one nothing is left.
    let clean = all_zero(numbers::rest(s, length));
    TextAt { length, clean }
}

pub fn put_zeros(out: &mut [u8], w: usize, n: usize)
    requires { w + n ≤ length out.old }
    ensures { out.new ≡ sets out.old w (replicate n 0) }
{
    out[w..w + n].fill(0);
}

// Writes a text into a field of so many bytes: the text, a zero, and zeros to the end of the field.
pub fn put_text(text: &[u8], width: usize, out: &mut [u8], w: usize)
    requires { (length text.now < width) × (w + width ≤ length out.old) }
    ensures { out.new ≡ sets out.old w (padded (field w width) text.now) }
{
    let n = text.len();
    copies::put_bytes(text, 0, n, out, w);
    put_zeros(out, w + n, width - n);
}
