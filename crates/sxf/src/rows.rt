// What a call answers, as C has it: a struct by value, in which a refusal has its three numbers, and zeros for all the rest.
ghost use Rattle.std.specs.Prelude.{◌≡◌, Result, Ok, Err};
ghost use Rattle.layout.specs.declared.Refusal.{Refusal};

use layout::Refusal;

// The structs are C's, each flat and with fields of its own. So each `impl` spells out the three numbers and the zeros of its struct.
pub trait Answered {
    type Row;

    // By the definitions (layout, Structs): the struct of an answer.
    ghost as_row: { Result Self Refusal → Self.Row };

    // What is asked of what is given: the bits of a float are undefined at a NaN.
    ghost defined: { Self → Type 0 } = { λ _. Unit {0} };

    fn given(self) -> Self::Row
        requires { defined self }
        ensures { result ≡ as_row (Ok self) };

    fn refused(r: Refusal) -> Self::Row
        ensures { result ≡ as_row (Err r) };
}

pub(crate) fn row_of<T: Answered>(answer: Result<T, Refusal>) -> T::Row
    requires { (x : T) → answer ≡ Ok x → T.defined x }
    ensures { result ≡ T.as_row answer }
{
    match answer {
        Ok(x) => x.given(),
        Err(r) => T::refused(r),
    }
}
