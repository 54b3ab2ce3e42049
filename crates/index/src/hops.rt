// The records of an accepted sheet, from header to header: what each gives the index, and where the next one starts.
ghost use Rattle.std.specs.Prelude.{◌≡◌, ◌+◌, ◌^◌, ◌≤◌, ◌<◌, length, drop};
ghost use Rattle.index.specs.Hopped.{entry_of, hopped};
ghost use Rattle.layout.specs.Bytes.{number_in};
ghost use Rattle.layout.specs.Fields.Header;
ghost use Rattle.reading.specs.Found.{Hops};

use crate::listed::Entries;
use fields::headers::header_at;
use layout::Entry;

// How many values the localisation's four bits have: it is the rest of byte 20 by so many.
const LOCALISATIONS: u8 = 16;

// The entry of the record that starts at a place.
pub fn entry_of(s: &[u8], at: usize) -> Entry
    requires { at + Header.size ≤ length s.now }
    ensures { result ≡ entry_of s.now at }
{
    let h = header_at(s, at);
    Entry {
        code: h.code,
        place: at,
        localisation: h.reference.byte20 % LOCALISATIONS,
    }
}

// Where the record after it starts.
pub fn next(s: &[u8], at: usize) -> usize
    requires { (at + Header.size ≤ length s.now) × (at + number_in Header.total (drop at s.now) ≤ length s.now) }
    ensures { result ≡ at + number_in Header.total (drop at s.now) }
{
    at + (header_at(s, at).total as usize)
}

// The entries of so many records of an accepted sheet, of which the first starts at a place.
#[derive(Clone, Copy)]
pub struct SheetEntries<'a> {
    pub s: &'a [u8],
    pub at: usize,
    pub count: usize,
}

impl<'a> Entries for SheetEntries<'a> {
    ghost left = { λ e. hopped e.count e.at e.s.now };

    ghost stand = { λ e. Hops e.count e.at e.s.now × (e.count < 2 ^ 32) };

    fn count(&self) -> usize {
        self.count
    }

    fn next(&mut self) -> Entry {
        let e = entry_of(self.s, self.at);
        self.at = next(self.s, self.at);
        self.count -= 1;
        e
    }
}
