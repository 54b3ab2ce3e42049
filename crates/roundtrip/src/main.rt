// Writes sheets and reads them back, by the calls that a program has. First each sample of `data/` is unfolded and written again from
// its own head and its three slices, which gives the same bytes. Then record tables made here are written, and unfolded again to the
// same numbers, at the setting that they were written for and at 2017. Last, some that the writer refuses.
//
// Relied on: the public calls of `reading` and `writing`, which are what is tried; the types of their answers (`layout`); `std::fs` and
// `std::io` for files and output. `data/` has copies of the accepted sheets of samples/, since the gate follows no link out of a
// crate.
//
// Promised: it is safe and it ends. What disagrees prints a FAILED line with its name and setting, all else a line of its own; the
// gate compares all of it with the file `stdout` beside this. A slice that is compared was filled beforehand, and is compared to its
// end. A write that fails ends the program with that error.
//
// Not tried here: the sample `long`. Its 32,000 elements have no room in a buffer of 65,536 bytes; `tables` has a line of 8,000.
#![tactic(auto)]

mod parts;
mod refusals;
mod same;
mod samples;
mod tables;
mod tell;

use std::io;

fn main(rt: HostRuntime) -> io::Result<()> {
    samples::all(&rt)?;
    tables::all(&rt)?;
    refusals::all(&rt)
}
