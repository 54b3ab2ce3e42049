// The checks on the header of a record.
ghost use Rattle.std.specs.Prelude.{◌≡◌, ◌-◌, ◌<◌, ◌^◌};
ghost use Rattle.reading_check.specs.Records.{header_checks};
ghost use Rattle.fields.specs.Checks.{checked};
ghost use Rattle.fields.specs.Headers.{header_of};
ghost use Rattle.layout.specs.Fields.Header as Field;

use fields::checks::{demand, feature};
use fields::flags;
use fields::headers::{Header, total_checks};
use layout::refusals::Reason;
use layout::{Refusal, header, sheet, years};

// What a record of so many bytes has beside its header. A total that is too small is refused before this counts.
fn beside(total: u32) -> u32
    ensures { result ≡ total - Field.size }
{
    total.saturating_sub(header::SIZE_U32)
}

// All checks on the header of a record at p, with so many bytes left from there on.
pub fn check_header(h: Header, p: usize, left: usize, year: u32) -> Result<(), Refusal>
    requires { p < 2 ^ 32 }
    ensures { result ≡ checked year p (header_checks left (header_of h)) }
{
    total_checks(h, p, left)?;
    demand(
        h.metric <= beside(h.total),
        Reason::Length,
        p + header::METRIC,
    )?;
    flags::reference_checks(
        h.reference,
        p,
        header::BYTE20,
        header::BYTE21,
        header::BYTE22,
        year,
    )?;
    let marked = h.points == sheet::MARK;
    feature(marked, years::MARK_65535, p + header::POINTS, year)
}
