// The two ways of turning a text, as one: what of it is not turned, what the rest is turned to, and the order in which that is answered.
ghost use Rattle.std.specs.Prelude.{◌≡◌, Bool, List, Result, ℕ, length, position};
ghost use Rattle.layout.specs.declared.Refusal.{Refusal};
ghost use Rattle.codings.specs.Numbers.{number_of};
ghost use Rattle.codings.specs.Ways.{WayLaws};

use crate::coding::Coding;
use fields::checks::refused;
use layout::Refusal;
use layout::refusals::Reason;

// A way of a coding: from bytes to 16-bit units, or back.
pub trait Way: Copy {
    type Given: Copy;

    type Turned: Copy;

    // By the definitions: what is answered to the number of a coding, a text and a room, and what a call leaves in the lent slice.
    ghost answer: { ℕ → List Self.Given → ℕ → Result ℕ Refusal };

    ghost left: { ℕ → List Self.Given → List Self.Turned → List Self.Turned };

    // What the code works out: the number of its coding, what is not turned, and what the rest is turned to.
    ghost number: { Self → ℕ };

    ghost lacks: { Self → Self.Given → Bool };

    ghost turn: { Self → Self.Given → Self.Turned };

    fn of(coding: Coding) -> Self
        ensures { number result ≡ number_of coding };

    // The index of the first that is not turned, if there is one.
    fn first_without(&self, text: &[Self::Given]) -> Option<usize>
        ensures { result ≡ position (lacks self.now) text.now };

    fn turn(&self, x: Self::Given) -> Self::Turned
        ensures { result ≡ turn self.now x };

    ghost laws: { WayLaws answer left number lacks turn };
}

// Turns a text, one for one: "16 for any other coding; 17 NO CHARACTER with the index of the byte or 16-bit unit, left to right, then 15." The
// slice is written to only once it is known that all of the text is turned and fits.
pub fn turn_text<W: Way>(
    coding: u32,
    text: &[W::Given],
    out: &mut [W::Turned],
) -> Result<usize, Refusal>
    ensures answers { result ≡ W.answer coding text.now (length out.old) }
    ensures turned { out.new ≡ W.left coding text.now out.old }
{
    let way = W::of(Coding::try_from(coding)?);
    if let Some(first) = way.first_without(text) {
        return refused(Reason::NoCharacter, first);
    }
    if out.len() < text.len() {
        return refused(Reason::Room, 0);
    }
    // By `out.iter_mut().zip(text)` a proof would know nothing of what is written.
    for (i, x) in text.iter().enumerate() {
        out[i] = way.turn(*x);
    }
    Ok(text.len())
}
