// What the writer refuses, with the slice left as it was.
use crate::same::{FILL_BYTE, bytes_as};
use crate::tables::plain_rest;
use crate::tell::{Line, Outcome};
use layout::refusals::Reason;
use layout::{Refusal, passport, row, years};
use meanings::setting::Setting;
use std::io;
use writing::sheets::write;

// The point of P, at 3, 4, with what the writer refuses, and the refusal that is stated for it.
#[derive(Clone, Copy)]
struct Case<'a> {
    designation: &'a [u8],
    reference: u64,
    mark: u64,
    at: Setting,
    stated: Refusal,
}

// What the case states, all else as in P. The word at +24 is 1, as many points as it has.
fn written(case: Case, out: &mut [u8]) -> Result<usize, Refusal> {
    let rest = plain_rest();
    let numbers = [0, 0, 0, case.reference, 255, 1, 1, 0, case.mark, 1, 0];
    write(
        b"",
        case.designation,
        0,
        b"",
        &rest,
        b"A",
        &[3, 0, 0, 0],
        &numbers,
        &[3, 4],
        b"",
        case.at,
        out,
    )
}

fn outcome(case: Case) -> Outcome {
    let mut out = [FILL_BYTE; 1024];
    match written(case, &mut out) {
        Err(r) if r == case.stated && bytes_as(&out, b"") => Outcome::Refused(r),
        _ => Outcome::Failed,
    }
}

fn tried(rt: &impl Print, name: &str, case: Case) -> io::Result<()> {
    let outcome = outcome(case);
    println!(rt;
        "{}",
        Line {
            name,
            outcome,
            at: case.at
        }
    )
}

fn refusal(reason: Reason, place: usize, year: u32) -> Refusal {
    Refusal {
        reason,
        place,
        year,
    }
}

pub fn all(rt: &impl Print) -> io::Result<()> {
    let long = Case {
        designation: b"AAAAAAAAAAAAAAAAAAAAAAAAAAAAAAAA",
        reference: 2,
        mark: 0,
        at: Setting::Y2017,
        stated: refusal(Reason::Text, passport::DESIGNATION, 0),
    };
    tried(rt, "designation of 32", long)?;
    let short = Case {
        designation: b"A",
        ..long
    };
    // A spline at the setting 1999, and a localisation that is none.
    let spline = Case {
        reference: 4194306,
        at: Setting::Y1999,
        stated: refusal(Reason::TooNew, row::REFERENCE, years::SPLINE_BITS),
        ..short
    };
    tried(rt, "spline", spline)?;
    let localisation = Case {
        reference: 6,
        stated: refusal(Reason::Reserved, row::REFERENCE, 0),
        ..short
    };
    tried(rt, "localisation 6", localisation)?;
    // The mark at the setting 1999, and a mark that is none.
    let mark = Case {
        mark: 1,
        at: Setting::Y1999,
        stated: refusal(Reason::TooNew, row::MARK, years::MARK_65535),
        ..short
    };
    tried(rt, "mark", mark)?;
    let mark_2 = Case {
        mark: 2,
        stated: refusal(Reason::Table, row::MARK, 0),
        ..short
    };
    tried(rt, "mark 2", mark_2)
}
