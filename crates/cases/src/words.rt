// The words of a line.
use crate::calls::Call;
use crate::lists::List;
use std::{fmt, str};

// A line that is none: a word is none, a value does not fit, or the call is not asked with as many numbers as it takes.
#[derive(Clone, Copy)]
pub struct BadLine;

impl fmt::Display for BadLine {
    fn fmt<W: fmt::Write>(&self, f: &mut fmt::Formatter<W>) -> fmt::Result {
        f.write_str(" BAD LINE")
    }
}

#[derive(Clone, Copy)]
pub enum Word<'a> {
    // @N, a place
    Place(u16),
    // #N, how many values
    Count(u16),
    Number(u64),
    // what begins with a quote, whose other quotes are no letters
    Letters(&'a [u8]),
    // the letter of the sheet that a definition is made of
    Base,
    List(List),
    Call(Call),
}

// What stands between two words.
pub fn is_blank(byte: u8) -> bool {
    matches!(byte, b' ' | b'\n' | b'=' | b',')
}

// A line up to its end. Of one that has none, a word that no blank follows is left out.
pub fn whole_words(rest: &[u8]) -> &[u8] {
    let end = rest.iter().position(|b| *b == b'\n');
    let end = end.or_else(|| rest.iter().rposition(|b| is_blank(*b)));
    end.and_then(|end| rest.get(..end)).unwrap_or(&[])
}

fn digit(byte: u8) -> Option<u8> {
    match byte {
        b'0'..=b'9' => Some(byte - b'0'),
        b'A'..=b'F' => Some(byte - b'A' + 10),
        _ => None,
    }
}

// A number with one more digit. `from_str_radix` would take small letters and signs, and has no limit of 60 bits before the last digit.
fn with_digit(n: u64, radix: u8, byte: u8) -> Option<u64> {
    let digit = digit(byte).filter(|digit| *digit < radix)?;
    if 0x1000000000000000 <= n {
        return None;
    }
    n.checked_mul(u64::from(radix))?
        .checked_add(u64::from(digit))
}

// The number of a word: decimal, or hexadecimal after 0x.
fn number(word: &[u8]) -> Result<u64, BadLine> {
    let mut radix = 10;
    let mut n = 0;
    for byte in word {
        if *byte == b'x' {
            radix = 16;
        } else {
            n = with_digit(n, radix, *byte).ok_or(BadLine)?;
        }
    }
    Ok(n)
}

fn named(word: &[u8]) -> Result<Word<'_>, BadLine> {
    let name = str::from_utf8(word).map_err(|_| BadLine)?;
    match name.parse::<List>() {
        Ok(list) => Ok(Word::List(list)),
        Err(BadLine) => Ok(Word::Call(name.parse::<Call>()?)),
    }
}

// The number of a place or a count, which is one of the sheet's at most.
fn small(word: &[u8]) -> Result<u16, BadLine> {
    match number(word)? {
        n @ 0..2048 => Ok(n as u16),
        _ => Err(BadLine),
    }
}

impl<'a> TryFrom<&'a [u8]> for Word<'a> {
    type Error = BadLine;

    fn try_from(word: &'a [u8]) -> Result<Word<'a>, BadLine> {
        match word {
            [b'@', place @ ..] => Ok(Word::Place(small(place)?)),
            [b'#', count @ ..] => Ok(Word::Count(small(count)?)),
            [b'0'..=b'9', ..] => Ok(Word::Number(number(word)?)),
            [b'\'', letters @ ..] => Ok(Word::Letters(letters)),
            [b'A'..=b'Z', ..] => Ok(Word::Base),
            _ => named(word),
        }
    }
}
