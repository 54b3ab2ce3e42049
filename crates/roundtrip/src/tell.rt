// The lines.
use layout::Refusal;
use meanings::setting::Setting;
use std::fmt;

// What became of a sheet: how many bytes it has, or the refusal.
#[derive(Clone, Copy)]
pub enum Outcome {
    Failed,
    Again(usize),
    ReadBack(usize),
    Refused(Refusal),
}

#[derive(Clone, Copy)]
pub struct Line<'a> {
    pub name: &'a str,
    pub outcome: Outcome,
    pub at: Setting,
}

impl fmt::Display for Line<'_> {
    fn fmt<W: fmt::Write>(&self, f: &mut fmt::Formatter<W>) -> fmt::Result {
        let name = self.name;
        match self.outcome {
            Outcome::Failed => write!(f, "FAILED {name}")?,
            Outcome::Again(length) => write!(f, "{name} {length} bytes again")?,
            Outcome::ReadBack(length) => write!(f, "{name} {length} bytes read back")?,
            Outcome::Refused(r) => write!(
                f,
                "{name} REFUSED {} {} {}",
                r.reason.number(),
                r.place,
                r.year
            )?,
        }
        write!(f, " at {}", self.at.year())
    }
}
