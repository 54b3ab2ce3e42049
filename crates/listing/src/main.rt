// Lists one sheet from standard input, at the setting 2017: its length, sum and count of records, then a line for each record; or the
// refusal. Input over 65,536 bytes is refused as TOO LONG, since no buffer here is larger.
//
// Relied on: the proved calls of `reading`, and `std::io` for input and output, over the C library's read and write. Promised: it is
// safe and it ends; what it prints is held to the file `stdout` beside this, for the sheet Q. A read or a write that fails ends it with
// that error.
#![tactic(auto)]

ghost use Rattle.std.specs.Prelude.{◌≤◌, length, IfOk};

use layout::refusals::Reason;
use layout::{RecordAt, Refusal};
use reading::records::record_at;
use reading::setting::Setting;
use reading::sheets::check;
use std::io::Read;
use std::{fmt, io};

// How many bytes a sheet may have. The buffer has room for these, and stands on the stack, so that no memory is asked for.
const MOST: usize = 65536;

// A refusal: its number, place and year.
#[derive(Clone, Copy)]
struct Refused(Refusal);

impl fmt::Display for Refused {
    fn fmt<W: fmt::Write>(&self, f: &mut fmt::Formatter<W>) -> fmt::Result {
        let r = self.0;
        write!(f, "REFUSED {} {} {}", r.reason.number(), r.place, r.year)
    }
}

// A record: its number, place, total length, code, number in group, group number, localisation, points of the first part, items.
#[derive(Clone, Copy)]
struct Line {
    number: u32,
    record: RecordAt,
}

impl fmt::Display for Line {
    fn fmt<W: fmt::Write>(&self, f: &mut fmt::Formatter<W>) -> fmt::Result {
        let r = self.record;
        write!(f, "{} {} {} {}", self.number, r.place, r.total, r.code)?;
        let localisation = r.reference % 16;
        write!(
            f,
            " {} {} {localisation} {} {}",
            r.in_group, r.group, r.points, r.items
        )
    }
}

fn lines(rt: &impl Print, s: &[u8], records: u32) -> io::Result<()> {
    for number in 0..records {
        match record_at(s, Setting::Y2017, u64::from(number)) {
            Ok(record) => println!(rt; "{}", Line { number, record })?,
            Err(r) => println!(rt; "{}", Refused(r))?,
        }
    }
    Ok(())
}

fn list(rt: &impl Print, s: &[u8]) -> io::Result<()> {
    match check(s, Setting::Y2017) {
        Ok(z) => {
            println!(rt; "SXF {} {} {}", s.len(), z.sum, z.records)?;
            lines(rt, s, z.records)
        }
        Err(r) => println!(rt; "{}", Refused(r)),
    }
}

// Reads until the buffer is full or the input ends, and answers how many bytes it put at the buffer's start.
fn read_full(from: &mut impl Read, buffer: &mut [u8]) -> io::Result<usize>
    ensures { IfOk result (λ n. n ≤ length buffer.new) }
{
    let mut done = 0;
    while done < buffer.len() {
        let n = from.read(&mut buffer[done..])?;
        if n == 0 {
            break;
        }
        done += n;
    }
    Ok(done)
}

fn main(rt: HostRuntime) -> io::Result<()> {
    let mut input = rt.reader();
    let mut sheet = [0u8; MOST];
    let n = read_full(&mut input, &mut sheet)?;
    if read_full(&mut input, &mut [0u8; 1])? != 0 {
        let too_long = Refusal {
            reason: Reason::TooLong,
            place: 0,
            year: 0,
        };
        return println!(rt; "{}", Refused(too_long));
    }
    list(&rt, &sheet[..n])
}
