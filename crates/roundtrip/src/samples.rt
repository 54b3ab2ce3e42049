// The sample sheets: unfolded, written again, and compared byte for byte.
ghost use Rattle.std.specs.Prelude.{◌≤◌, length};

use crate::parts::{carried_of, part, rest_of, start};
use crate::same::{FILL, FILL_BYTE, bytes_as};
use crate::tables::Table;
use crate::tell::{Line, Outcome};
use layout::{HeadAt, descriptor, passport};
use meanings::setting::Setting;
use reading::heads::head_of;
use reading::sheets::unfold;
use std::fs::File;
use std::io;
use std::io::Read;
use std::rt::Files;
use writing::sheets::write;

// How many numbers or elements there is room for, and how many bytes. No sample here takes more.
const ROOM: usize = 256;

const BYTES: usize = 1024;

// Writes the sheet from its head and a record table, and answers whether that gives the sheet.
fn is_written(s: &[u8], h: HeadAt, table: Table, at: Setting) -> bool {
    let rest = rest_of(s);
    let carried = carried_of(s);
    let mut out = [FILL_BYTE; BYTES];
    match write(
        part(s, passport::DATE, h.date.length),
        part(s, passport::DESIGNATION, h.designation.length),
        h.scale,
        part(s, passport::TITLE, h.title.length),
        &rest,
        part(s, descriptor::DESIGNATION, h.designation2.length),
        &carried,
        table.numbers,
        table.elements,
        table.bytes,
        at,
        &mut out,
    ) {
        Ok(n) => n == s.len() && bytes_as(&out, s),
        Err(_) => false,
    }
}

// Unfolds the sheet, and answers whether it is written again.
fn is_unfolded(s: &[u8], h: HeadAt, at: Setting) -> bool {
    let mut numbers = [FILL; ROOM];
    let mut elements = [FILL; ROOM];
    let mut bytes = [FILL_BYTE; BYTES];
    match unfold(s, at, &mut numbers, &mut elements, &mut bytes) {
        Ok(z) => {
            let table = Table {
                numbers: start(&numbers, z.numbers),
                elements: start(&elements, z.elements),
                bytes: start(&bytes, z.bytes),
            };
            is_written(s, h, table, at)
        }
        Err(_) => false,
    }
}

fn is_again(s: &[u8], at: Setting) -> bool {
    match head_of(s, at) {
        Ok(h) => is_unfolded(s, h, at),
        Err(_) => false,
    }
}

// Reads until the buffer is full, the input ends or a read fails, and answers how many bytes it put at the buffer's start.
fn read_full(from: &mut impl Read, buffer: &mut [u8]) -> usize
    ensures { result ≤ length buffer.new }
{
    let mut done = 0;
    while done < buffer.len() {
        match from.read(&mut buffer[done..]) {
            Ok(0) | Err(_) => return done,
            Ok(n) => done += n,
        }
    }
    done
}

// The same from a file, of which one that cannot be opened has no bytes.
fn read_file(rt: &impl Files, path: &str, buffer: &mut [u8]) -> usize
    ensures { result ≤ length buffer.new }
{
    match File::open(rt, path) {
        Ok(mut file) => read_full(&mut file, buffer),
        Err(_) => 0,
    }
}

// The sheet of a file, which each setting opens anew. One that cannot be opened or read counts as an empty sheet, which fails.
fn sample(rt: &(impl Files + Print), path: &str, at: &[Setting]) -> io::Result<()> {
    let name = path.strip_suffix(".sxf").unwrap_or(path);
    for at in at.iter().copied() {
        let mut sheet = [0u8; BYTES];
        let length = read_file(rt, path, &mut sheet);
        let outcome = if is_again(&sheet[..length], at) {
            Outcome::Again(length)
        } else {
            Outcome::Failed
        };
        println!(rt; "{}", Line { name, outcome, at })?;
    }
    Ok(())
}

pub fn all(rt: &(impl Files + Print)) -> io::Result<()> {
    // Document 01's own sheets have nothing of a later year than 1999.
    for path in ["E.sxf", "P.sxf", "Q.sxf"] {
        sample(rt, path, &[Setting::Y1999, Setting::Y2008, Setting::Y2017])?;
    }
    for path in [
        "head.sxf",
        "labels.sxf",
        "heights.sxf",
        "items.sxf",
        "dated.sxf",
    ] {
        sample(rt, path, &[Setting::Y2017])?;
    }
    sample(rt, "mark-small.sxf", &[Setting::Y2004, Setting::Y2017])
}
