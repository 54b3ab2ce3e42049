// The lists of checks that the reader and the writer share: the reference bytes of a record, the rest of the passport, and the four
// carried bytes of the descriptor.
ghost use Rattle.std.specs.Prelude.{true, ◌≡◌, ℕ, ◌+◌, ◌≤◌, ◌<◌, ◌^◌, length};
ghost use Rattle.fields.specs.Flags.{rest_by, carried_by};
ghost use Rattle.fields.specs.References.{reference_by};
ghost use Rattle.fields.specs.Checks.{checked};
ghost use Rattle.layout.specs.Fields.Descriptor;
ghost use Rattle.layout.specs.Fields.Passport;
ghost use Rattle.layout.specs.Shared.Carried.{rest_checks, carried_checks};
ghost use Rattle.layout.specs.Shared.Reference.{reference_checks};

use crate::checks::{demand, feature};
use crate::records::ReferenceBytes;
use crate::{numbers, texts};
use layout::refusals::Reason;
use layout::{Refusal, carried, descriptor, passport, rest, years};

// The reference bytes, at place + k, place + l and place + m.
#[tactic(auto, unfolding(layout::specs::Shared::Reference::reference_checks, layout::specs::Shared::Reference::byte20, layout::specs::Shared::Reference::byte21, layout::specs::Shared::Reference::byte22))]
fn reference_by(
    bytes: ReferenceBytes,
    place: usize,
    k: usize,
    l: usize,
    m: usize,
    year: u32,
) -> Result<(), Refusal>
    requires { (place + k < 2 ^ 64) × (place + l < 2 ^ 64) × (place + m < 2 ^ 64) }
    ensures { result ≡ checked year place (reference_checks k l m (reference_by bytes)) }
{
    let ReferenceBytes {
        byte20: b20,
        byte21: b21,
        byte22: b22,
    } = bytes;
    let loc = b20 % 16;
    let at20 = place + k;
    let at21 = place + l;
    let at22 = place + m;
    demand((loc <= 5) & (b20 / 32 % 8 == 0), Reason::Reserved, at20)?;
    feature(b20 / 16 % 2 == 1, years::MULTIPOLYGON, at20, year)?;
    feature(b21 % 2 == 1, years::COMPRESSED_GRAPHICS, at21, year)?;
    feature(b21 / 8 % 2 == 1, years::BINDING_VECTOR, at21, year)?;
    feature(b21 / 16 % 2 == 1, years::UNICODE, at21, year)?;
    feature(b21 / 32 % 2 == 1, years::ABOVE_ALL, at21, year)?;
    feature(b21 / 64 % 2 == 1, years::BELOW_ALL, at21, year)?;
    feature(b21 / 128 % 2 == 1, years::VERTICAL_ALIGNMENT, at21, year)?;
    demand(!(b21 / 8 % 2 == 1), Reason::NotCarried, at21)?;
    let text = (!(b22 / 8 % 2 == 1) | (loc == 3)) | (loc == 5);
    demand(!(b22 % 2 == 1) & text, Reason::Reserved, at22)?;
    feature(!(b22 / 64 % 4 == 0), years::SPLINE_BITS, at22, year)?;
    demand(!(b22 / 16 % 2 == 1), Reason::NotCarried, at22)
}

// Reference bytes that no check minds at any setting: of byte 21 only semantics and element size, of byte 22 only three dimensions and
// floating. Most records have such bytes, and asking once takes a fifth of the instructions of asking check by check.
fn plain(bytes: ReferenceBytes) -> bool
    ensures { result ≡ true → (k l m p y : ℕ) → checked y p (reference_checks k l m (reference_by bytes)) ≡ Ok tt }
{
    let ReferenceBytes {
        byte20: b20,
        byte21: b21,
        byte22: b22,
    } = bytes;
    ((b20 <= 5) & ((b21 < 8) & (b21 % 2 == 0))) & ((b22 < 8) & (b22 % 2 == 0))
}

// The checks on the reference bytes. Bytes that every check lets through are let through at once.
pub fn reference_checks(
    bytes: ReferenceBytes,
    place: usize,
    k: usize,
    l: usize,
    m: usize,
    year: u32,
) -> Result<(), Refusal>
    requires { (place + k < 2 ^ 64) × (place + l < 2 ^ 64) × (place + m < 2 ^ 64) }
    ensures { result ≡ checked year place (reference_checks k l m (reference_by bytes)) }
{
    if plain(bytes) {
        return Ok(());
    }
    reference_by(bytes, place, k, l, m, year)
}

// The checks on the rest of the passport, given as what stands in it; north and east say whether an offset has a byte that is not zero.
fn rest_by(
    flags: u8,
    labels: u8,
    accuracy: u8,
    sorting: u8,
    epsg: u32,
    north: bool,
    east: bool,
    year: u32,
) -> Result<(), Refusal>
    ensures { result ≡ checked year 0 (rest_by flags labels accuracy sorting epsg north east) }
{
    let real = flags / 8 % 4;
    let state = ((flags % 4 == 3) & ((real == 0) | (real == 3))) & (flags / 32 % 4 == 0);
    demand(
        state & !(flags / 4 % 2 == 1),
        Reason::Reserved,
        passport::FLAGS,
    )?;
    demand(labels <= 2, Reason::Reserved, passport::LABELS)?;
    demand(accuracy <= 3, Reason::Reserved, passport::ACCURACY)?;
    feature(
        !(accuracy == 0),
        years::ACCURACY_SET,
        passport::ACCURACY,
        year,
    )?;
    demand(sorting / 2 % 128 == 0, Reason::Reserved, passport::SORTING)?;
    feature(
        sorting % 2 == 1,
        years::SPECIAL_SORTING,
        passport::SORTING,
        year,
    )?;
    feature(!(epsg == 0), years::EPSG_SET, passport::EPSG, year)?;
    feature(north, years::NORTH_OFFSET, passport::NORTH, year)?;
    feature(east, years::EAST_OFFSET, passport::EAST, year)
}

// The checks on the rest of the passport, given as its 304 bytes.
#[tactic(auto, unfolding(layout::specs::Shared::Carried::rest_checks))]
pub fn rest_checks(r: &[u8], year: u32) -> Result<(), Refusal>
    requires { (Passport.rest).width ≤ length r.now }
    ensures { result ≡ checked year 0 (rest_checks r.now) }
{
    let flags = numbers::at::<u8>(r, rest::FLAGS);
    let labels = numbers::at::<u8>(r, rest::LABELS);
    let accuracy = numbers::at::<u8>(r, rest::ACCURACY);
    let sorting = numbers::at::<u8>(r, rest::SORTING);
    let epsg = numbers::at::<u32>(r, rest::EPSG);
    let north = !texts::all_zero(numbers::part(r, rest::NORTH, rest::OFFSET_WIDTH));
    let east = !texts::all_zero(numbers::part(r, rest::EAST, rest::OFFSET_WIDTH));
    rest_by(flags, labels, accuracy, sorting, epsg, north, east, year)
}

// The checks on the descriptor's carried bytes, given as what stands in them.
fn carried_by(flags: u8, labels: u8, secrecy: u8, keeping: u8, year: u32) -> Result<(), Refusal>
    ensures { result ≡ checked year 0 (carried_by flags labels secrecy keeping) }
{
    let real = flags / 8 % 4;
    let state = ((flags % 4 == 3) & ((real == 0) | (real == 3))) & (flags / 32 % 4 == 0);
    demand(state, Reason::Reserved, descriptor::FLAGS)?;
    demand(labels <= 2, Reason::Reserved, descriptor::LABELS)?;
    demand(secrecy <= 5, Reason::Reserved, descriptor::SECRECY)?;
    demand(keeping / 4 % 64 == 0, Reason::Reserved, descriptor::KEEPING)?;
    feature(
        keeping % 2 == 1,
        years::AUTOMATIC_GUID,
        descriptor::KEEPING,
        year,
    )?;
    feature(
        keeping / 2 % 2 == 1,
        years::EDIT_DATE,
        descriptor::KEEPING,
        year,
    )
}

// The checks on the descriptor's carried bytes, given as the four bytes.
#[tactic(auto, unfolding(layout::specs::Shared::Carried::carried_checks))]
pub fn carried_checks(c: &[u8], year: u32) -> Result<(), Refusal>
    requires { (Descriptor.carried).width ≤ length c.now }
    ensures { result ≡ checked year 0 (carried_checks c.now) }
{
    let flags = numbers::at::<u8>(c, carried::FLAGS);
    let labels = numbers::at::<u8>(c, carried::LABELS);
    let secrecy = numbers::at::<u8>(c, carried::SECRECY);
    let keeping = numbers::at::<u8>(c, carried::KEEPING);
    carried_by(flags, labels, secrecy, keeping, year)
}
