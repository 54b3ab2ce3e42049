// The refusals by the documents' names and numbers. (specs/Refusals.antt says when each is given)
ghost use Rattle.layout.specs.Refusals.{refusal_number};
ghost use Rattle.std.specs.Prelude.{◌≡◌};

use std::fmt;

// Why something is refused. The numbers are the documents'.
#[derive(Clone, Copy, PartialEq, Eq)]
pub enum Reason {
    TooLong = 1,
    Short = 2,
    NotSxf = 3,
    Edition = 4,
    Sum = 5,
    Text = 6,
    Reserved = 7,
    TooNew = 8,
    NotCarried = 9,
    Length = 10,
    Count = 11,
    Semantic = 12,
    LeftOver = 13,
    Table = 14,
    Room = 15,
    Ask = 16,
    NoCharacter = 17,
    BadBlock = 18,
}

impl Reason {
    pub fn number(self) -> u32
        ensures { result ≡ refusal_number self }
    {
        self as u32
    }
}

impl fmt::Display for Reason {
    fn fmt<W: fmt::Write>(&self, f: &mut fmt::Formatter<W>) -> fmt::Result {
        let name = match self {
            Reason::TooLong => "TOO LONG",
            Reason::Short => "SHORT",
            Reason::NotSxf => "NOT SXF",
            Reason::Edition => "EDITION",
            Reason::Sum => "SUM",
            Reason::Text => "TEXT",
            Reason::Reserved => "RESERVED",
            Reason::TooNew => "TOO NEW",
            Reason::NotCarried => "NOT CARRIED",
            Reason::Length => "LENGTH",
            Reason::Count => "COUNT",
            Reason::Semantic => "SEMANTIC",
            Reason::LeftOver => "LEFT OVER",
            Reason::Table => "TABLE",
            Reason::Room => "ROOM",
            Reason::Ask => "ASK",
            Reason::NoCharacter => "NO CHARACTER",
            Reason::BadBlock => "BAD BLOCK",
        };
        write!(f, "{name}")
    }
}
