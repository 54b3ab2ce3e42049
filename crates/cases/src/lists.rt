// The lists of numbers and of bytes that a line fills for its call.
use crate::words::BadLine;
use std::str::FromStr;

#[derive(Clone, Copy, PartialEq, Eq)]
pub enum List {
    // The lists of numbers. The first has what the call is asked with, such as a year.
    Ask,
    Scale,
    Table,
    Elements,
    // The lists of bytes.
    Date,
    Designation,
    Title,
    Rest,
    Designation2,
    Carried,
    Bytes,
    Sheet,
}

impl FromStr for List {
    type Err = BadLine;

    fn from_str(name: &str) -> Result<List, BadLine> {
        match name {
            "ask" => Ok(List::Ask),
            "scale" => Ok(List::Scale),
            "table" => Ok(List::Table),
            "elements" => Ok(List::Elements),
            "date" => Ok(List::Date),
            "designation" => Ok(List::Designation),
            "title" => Ok(List::Title),
            "rest" => Ok(List::Rest),
            "designation2" => Ok(List::Designation2),
            "carried" => Ok(List::Carried),
            "bytes" => Ok(List::Bytes),
            "sheet" => Ok(List::Sheet),
            _ => Err(BadLine),
        }
    }
}
