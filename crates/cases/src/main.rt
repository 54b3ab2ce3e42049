// Runs cases with stated answers: each line of the standard input is a case, and what it answers is printed behind its name. The cases stand in
// the file `stdin` of this crate, which says at its top how a line is written, and the stated answers in `stdout`. A new case is a line in each.
// A read or a write that fails ends it with that error.
#![tactic(auto)]

mod calls;
mod form;
mod lists;
mod print;
mod reader;
mod values;
mod words;
mod writer;

ghost use Rattle.std.specs.Prelude.{◌≤◌, length, IfSome};

use form::Form;
use std::io;
use std::io::Read;
use words::BadLine;

// How many bytes of input there are, with zeros after those that were read: a name that no blank follows has them too.
const ROOM: usize = 65536;

// What stands behind the = of the line that defines a letter. The first line defines none. The = is asked for first: far more lines end than define
// a letter, and a test that often holds would make the search slower.
fn definition(text: &[u8], letter: u8) -> Option<&[u8]>
    ensures { IfSome result (λ d. length d.now ≤ length text.now) }
{
    let at = text.windows(3).position(
        |w| matches!(w, [end, of, b'='] if *of == letter && *end == b'\n'),
    )?;
    text.get(at + 3..)
}

// The letter of the sheet that a definition is made of, or what stands there in place of one.
fn base_of(definition: Option<&[u8]>) -> u8 {
    definition.and_then(|d| d.first().copied()).unwrap_or(0)
}

// The words of a sheet, and before them those of the sheet that it is made of, whose letter stands after the =, and of that one's. A letter
// that no line defines is wrong; - stands for no sheet.
fn define(form: &mut Form, text: &[u8], letter: u8) -> Result<(), BadLine> {
    let third = definition(text, letter);
    let second = definition(text, base_of(third));
    let first = definition(text, base_of(second));
    for line in [first, second, third].into_iter().flatten() {
        form.fill(line)?;
    }
    if third.is_none() && letter != b'-' {
        return Err(BadLine);
    }
    Ok(())
}

fn fill(form: &mut Form, text: &[u8], letter: u8, line: &[u8]) -> Result<(), BadLine> {
    define(form, text, letter)?;
    form.fill(line)?;
    form.put_sum();
    Ok(())
}

// The name of a case goes on to the next blank.
fn case(rt: &impl Print, text: &[u8], letter: u8, rest: &[u8]) -> io::Result<()> {
    let end = rest.iter().position(|b| *b == b' ').unwrap_or(rest.len());
    let (name, line) = rest.split_at(end);
    rt.write_all(name)?;
    rt.print(":")?;
    let mut form = Form::new();
    match fill(&mut form, text, letter, line) {
        Ok(()) => calls::run(rt, &form)?,
        Err(bad) => rt.print(bad)?,
    }
    rt.print("\n")
}

// A case begins with the letter of its sheet, or -, and a blank.
fn cases(rt: &impl Print, text: &[u8]) -> io::Result<()> {
    let mut rest = text;
    for line in text.split_inclusive(|b| *b == b'\n') {
        if let [letter, b' ', case_of @ ..] = rest
            && *letter != b'#'
        {
            case(rt, text, *letter, case_of)?;
        }
        rest = rest.get(line.len()..).unwrap_or(&[]);
    }
    Ok(())
}

// Reads until the buffer is full or the input ends, and answers how many bytes it put at the buffer's start.
fn read_full(from: &mut impl Read, buffer: &mut [u8]) -> io::Result<usize> {
    let mut done = 0;
    while done < buffer.len() {
        let n = from.read(&mut buffer[done..])?;
        if n == 0 {
            break;
        }
        done += n;
    }
    Ok(done)
}

fn main(rt: HostRuntime) -> io::Result<()> {
    let mut text = [0u8; ROOM];
    let n = read_full(&mut rt.reader(), &mut text)?;
    cases(&rt, &text)?;
    if n == ROOM {
        rt.print("TOO LONG\n")?;
    }
    Ok(())
}
