// What a line says: its call, and the lists of numbers and of bytes for it.
//
// A place is counted through all lists, 512 for each, of which the first is for its count; the sheet is the last, and has 2048. So a place
// or a count that goes past a list goes on into those behind it: `table @600` is a place of the elements, and `table #600` has their count
// and their first values behind the table's 511. A line may say so, which is why a place is a number and not a list with an index in it.
ghost use Rattle.std.specs.Prelude.{◌<◌, ◌≤◌, length};

use crate::calls::Call;
use crate::lists::List;
use crate::words::{BadLine, Word, is_blank, whole_words};
use layout::passport;

// How many places a list has, and all lists.
const PLACES: usize = 512;

const ALL_PLACES: usize = 7680;

// In the order in which they stand.
const LISTS: [List; 12] = [
    List::Ask,
    List::Scale,
    List::Table,
    List::Elements,
    List::Date,
    List::Designation,
    List::Title,
    List::Rest,
    List::Designation2,
    List::Carried,
    List::Bytes,
    List::Sheet,
];

// The bytes of all places, of which those of a list are a part.
pub type Bytes = [u8; ALL_PLACES];

#[derive(Drop)]
pub struct Form {
    call: Option<Call>,
    // of each list its count, and then its values; those not given are zeros
    places: [u64; ALL_PLACES],
    // the place of the next value
    next: usize,
}

// The list that has a place.
fn list_at(place: usize) -> List {
    LISTS.get(place / PLACES).copied().unwrap_or(List::Sheet)
}

// Where a list has its count.
fn start_of(list: List) -> usize
    ensures { result < 7680 }
{
    list as usize * PLACES
}

// What a value of a list stays below. A number that is as large as it can be counts as none.
fn limit_of(list: List) -> u64 {
    match list {
        List::Ask | List::Scale | List::Table | List::Elements => u64::MAX,
        _ => 256,
    }
}

impl Form {
    pub fn new() -> Form {
        Form {
            call: None,
            places: [0; ALL_PLACES],
            next: 0,
        }
    }

    pub fn call(&self) -> Option<Call> {
        self.call
    }

    // The list that @ and # are of: that which was named last, or else the sheet.
    fn marked(&self) -> List {
        match list_at(self.next) {
            List::Ask => List::Sheet,
            list => list,
        }
    }

    fn put(&mut self, value: u64) -> Result<(), BadLine> {
        let list = list_at(self.next);
        let start = start_of(list);
        if self.next <= start || ALL_PLACES <= self.next || limit_of(list) <= value {
            return Err(BadLine);
        }
        self.places[self.next] = value;
        self.places[start] = self.places[start].max((self.next - start) as u64);
        self.next += 1;
        Ok(())
    }

    fn take(&mut self, word: Word) -> Result<(), BadLine> {
        match word {
            Word::Place(n) => self.next = start_of(self.marked()) + 1 + usize::from(n),
            Word::Count(n) => self.places[start_of(self.marked())] = u64::from(n),
            Word::Number(n) => self.put(n)?,
            Word::Letters(letters) => {
                for letter in letters.iter().filter(|letter| **letter != b'\'') {
                    self.put(u64::from(*letter))?;
                }
            }
            Word::Base => {}
            Word::List(list) => self.next = start_of(list) + 1,
            Word::Call(call) => {
                if self.call.replace(call).is_some() {
                    return Err(BadLine);
                }
            }
        }
        Ok(())
    }

    // Takes all words to the end of a line. What comes first is asked of the call.
    pub fn fill(&mut self, line: &[u8]) -> Result<(), BadLine> {
        self.next = start_of(List::Ask) + 1;
        for word in whole_words(line).split(|b| is_blank(*b)) {
            if !word.is_empty() {
                self.take(Word::try_from(word)?)?;
            }
        }
        Ok(())
    }

    // Puts the sum of the sheet, whose four bytes at 12 are zero, unless the line has put one that does not end in a zero byte.
    pub fn put_sum(&mut self) {
        let values = self.values(List::Sheet).iter();
        let sum = values.fold(0u64, |sum, value| sum.wrapping_add(*value));
        let place = start_of(List::Sheet) + 1 + passport::SUM;
        if self.places.get(place) == Some(&0) {
            for (i, byte) in sum.to_le_bytes().into_iter().take(3).enumerate() {
                if let Some(place) = self.places.get_mut(place + i) {
                    *place = u64::from(byte);
                }
            }
        }
    }

    // The first value of a list, also of one that has none.
    pub fn first(&self, list: List) -> u64 {
        self.places.get(start_of(list) + 1).copied().unwrap_or(0)
    }

    // So much of all places as the list says that it has.
    fn part<'a, T>(&self, all: &'a [T], list: List) -> &'a [T]
        ensures { length result.now ≤ length all.now }
    {
        let start = start_of(list);
        let count = self.places[start] as usize;
        let behind = all.get(start + 1..).unwrap_or(&[]);
        behind.get(..count).unwrap_or(behind)
    }

    pub fn values(&self, list: List) -> &[u64] {
        self.part(&self.places, list)
    }

    pub fn all_bytes(&self) -> Bytes {
        let mut bytes = [0u8; ALL_PLACES];
        for (byte, n) in bytes.iter_mut().zip(self.places.iter()) {
            *byte = (*n % 256) as u8;
        }
        bytes
    }

    pub fn bytes<'a>(&self, all: &'a Bytes, list: List) -> &'a [u8] {
        self.part(all, list)
    }
}
