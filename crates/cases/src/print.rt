// Answers as text. Each piece begins with a blank, since the name of the case stands before it.
use layout::{Refusal, Sizes};
use std::{fmt, io};

// What lent memory is filled with before a call; it prints as a dot. No case has it for a number or a byte of its answer.
pub const FILL: u64 = 165;

pub const FILL_BYTE: u8 = 165;

// Hexadecimal from 2^28 on, where most numbers are the bits of others.
#[derive(Clone, Copy)]
pub struct Number(pub u64);

impl fmt::Display for Number {
    fn fmt<W: fmt::Write>(&self, f: &mut fmt::Formatter<W>) -> fmt::Result {
        match self.0 {
            FILL => f.write_str(" ."),
            n @ 0..0x10000000 => write!(f, " {n}"),
            n => write!(f, " 0x{n:x}"),
        }
    }
}

#[derive(Clone, Copy)]
pub struct Numbers<'a, T>(pub &'a [T]);

impl<T: Copy + Into<u64>> fmt::Display for Numbers<'_, T> {
    fn fmt<W: fmt::Write>(&self, f: &mut fmt::Formatter<W>) -> fmt::Result {
        for n in self.0 {
            write!(f, "{}", Number((*n).into()))?;
        }
        Ok(())
    }
}

// An answer of the library, which is printed as `Told`.
pub trait Tell {
    fn tell<W: fmt::Write>(&self, f: &mut fmt::Formatter<W>) -> fmt::Result;
}

#[derive(Clone, Copy)]
pub struct Told<T>(pub T);

impl<T: Tell> fmt::Display for Told<T> {
    fn fmt<W: fmt::Write>(&self, f: &mut fmt::Formatter<W>) -> fmt::Result {
        self.0.tell(f)
    }
}

pub fn answer<T: Tell + Copy>(rt: &impl Print, told: T) -> io::Result<()> {
    print!(rt; "{}", Told(told))
}

impl Tell for Refusal {
    fn tell<W: fmt::Write>(&self, f: &mut fmt::Formatter<W>) -> fmt::Result {
        let numbers = [
            u64::from(self.reason.number()),
            self.place as u64,
            u64::from(self.year),
        ];
        write!(f, " REFUSED{}", Numbers(&numbers))
    }
}

impl<T: Tell> Tell for Result<T, Refusal> {
    fn tell<W: fmt::Write>(&self, f: &mut fmt::Formatter<W>) -> fmt::Result {
        match self {
            Ok(answer) => answer.tell(f),
            Err(r) => r.tell(f),
        }
    }
}

impl Tell for Sizes {
    fn tell<W: fmt::Write>(&self, f: &mut fmt::Formatter<W>) -> fmt::Result {
        let of_sheet = [u64::from(self.sum), u64::from(self.records)];
        let of_table = [self.numbers as u64, self.elements as u64, self.bytes as u64];
        write!(f, "{}{}", Numbers(&of_sheet), Numbers(&of_table))
    }
}

impl Tell for usize {
    fn tell<W: fmt::Write>(&self, f: &mut fmt::Formatter<W>) -> fmt::Result {
        write!(f, "{}", Number(*self as u64))
    }
}
