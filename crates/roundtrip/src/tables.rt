// Record tables: written, and unfolded again to the same numbers, elements and bytes.
use crate::parts::start;
use crate::same::{FILL, FILL_BYTE, bytes_as, numbers_as};
use crate::tell::{Line, Outcome};
use layout::{Refusal, passport};
use meanings::setting::Setting;
use reading::sheets::unfold;
use std::io;
use writing::sheets::write;

// The three slices of a record table.
#[derive(Clone, Copy)]
pub struct Table<'a> {
    pub numbers: &'a [u64],
    pub elements: &'a [u64],
    pub bytes: &'a [u8],
}

// The bytes from 96 on of a sheet that has nothing but what it must.
pub fn plain_rest() -> [u8; passport::REST_WIDTH] {
    let mut rest = [0u8; passport::REST_WIDTH];
    rest[0] = 3;
    rest
}

// Writes a sheet with a head of its own.
fn written(table: Table, at: Setting, out: &mut [u8]) -> Result<usize, Refusal> {
    let rest = plain_rest();
    write(
        b"20170101",
        b"N-37",
        25000,
        b"North bank",
        &rest,
        b"N-37-004",
        &[3, 1, 5, 0],
        table.numbers,
        table.elements,
        table.bytes,
        at,
        out,
    )
}

// Whether a sheet unfolds to a record table.
fn reads_as(s: &[u8], at: Setting, table: Table) -> bool {
    let mut numbers = [FILL; 64];
    let mut elements = [FILL; 8192];
    let mut bytes = [FILL_BYTE; 32];
    match unfold(s, at, &mut numbers, &mut elements, &mut bytes) {
        Ok(z) => {
            z.numbers == table.numbers.len()
                && z.elements == table.elements.len()
                && z.bytes == table.bytes.len()
                && numbers_as(&numbers, table.numbers)
                && numbers_as(&elements, table.elements)
                && bytes_as(&bytes, table.bytes)
        }
        Err(_) => false,
    }
}

// Writes it, and reads it at its setting and at 2017.
fn outcome(table: Table, at: Setting) -> Outcome {
    let mut out = [FILL_BYTE; 65536];
    match written(table, at, &mut out) {
        Ok(n) => {
            let s = start(&out, n);
            if bytes_as(&out, s) && reads_as(s, at, table) && reads_as(s, Setting::Y2017, table) {
                Outcome::ReadBack(n)
            } else {
                Outcome::Failed
            }
        }
        Err(_) => Outcome::Failed,
    }
}

fn tried(rt: &impl Print, name: &str, table: Table, at: &[Setting]) -> io::Result<()> {
    for at in at.iter().copied() {
        let outcome = outcome(table, at);
        println!(rt; "{}", Line { name, outcome, at })?;
    }
    Ok(())
}

// Two labels with an item each: reference bytes 3, 2 and 8. The first has a subobject whose text is empty, and every number of its
// header set; the second has an item of type 0, whose value is "A" and its closing zero.
const LABELS: Table = Table {
    numbers: &[
        // The first record, its two parts, its item.
        91000000, 7, 9, 524803, 36, 10, 2, 1, 0, 1, 2, 2, 0, 1, 2, 255, 2,
        // The second, its part, its item.
        5, 1, 1, 524803, 255, 0, 1, 1, 0, 2, 3, 20, 0, 1, 2,
    ],
    elements: &[1, 2, 3, 4, 5, 0xFFFF, 100, 200, 300, 500],
    bytes: b"ab\xF9\x04xyzA\0",
};

// Two lines with a spline, which is of 2004: reference bytes 0, 4 and 0x40, so that an element has four bytes. One has no point.
const SPLINES: Table = Table {
    numbers: &[
        1, 0, 0, 4195328, 255, 0, 1, 0, 0, 3, 0, 2, 0, 0, 4195328, 255, 0, 1, 0, 0, 0, 0,
    ],
    elements: &[1, 2, 70000, 4, 5, 0xFFFFFFFF],
    bytes: b"",
};

// A point of three doubles with an item of type 128, which is of 2012: reference bytes 2, 6 and 6.
const LONG_VALUE: Table = Table {
    numbers: &[3, 0, 0, 394754, 255, 0, 1, 1, 0, 1, 0, 8, 128, 255, 4],
    elements: &[0x3FF0000000000000, 0x4000000000000000, 0x4008000000000000],
    bytes: b"A\0\0\0",
};

// A shore of two points with an island of three, under the mark, which is of 2004: reference bytes 1, 0 and 0. The word is the first
// count.
const SHORE: Table = Table {
    numbers: &[5, 0, 0, 1, 255, 2, 2, 0, 1, 2, 0, 3, 0],
    elements: &[1, 2, 3, 4, 5, 6, 7, 8, 9, 10],
    bytes: b"",
};

// Elements of which no two are the same, and no byte is always zero.
fn varied() -> [u64; 8000] {
    std::array::from_fn(|i| (i as u64).wrapping_mul(0x0103050709111317))
}

// A line of 4,000 points, of two doubles each: reference bytes 0, 4 and 4.
fn long_line(rt: &impl Print) -> io::Result<()> {
    let elements = varied();
    let table = Table {
        numbers: &[4, 0, 0, 263168, 255, 0, 1, 0, 0, 4000, 0],
        elements: &elements,
        bytes: b"",
    };
    tried(rt, "long line", table, &[Setting::Y1999, Setting::Y2017])
}

pub fn all(rt: &impl Print) -> io::Result<()> {
    let of_1999 = [
        Setting::Y1999,
        Setting::Y2004,
        Setting::Y2012,
        Setting::Y2017,
    ];
    tried(rt, "two labels", LABELS, &of_1999)?;
    tried(
        rt,
        "two splines",
        SPLINES,
        &[Setting::Y2004, Setting::Y2012, Setting::Y2017],
    )?;
    tried(
        rt,
        "long value",
        LONG_VALUE,
        &[Setting::Y2012, Setting::Y2017],
    )?;
    long_line(rt)?;
    tried(rt, "shore", SHORE, &[Setting::Y2004, Setting::Y2017])
}
