// The 452 bytes of passport and descriptor, and the sum.
ghost use Rattle.std.specs.Prelude.{◌≡◌, ◌<◌, ◌≤◌, length, take};
ghost use Rattle.std.proofs.lemmas.List.Edits.{sets};
ghost use Rattle.writing_head.specs.Heads.{start_bytes, name_bytes, descriptor_bytes, clean_head, head_in, Fits};
ghost use Rattle.layout.specs.Bytes.{bytes};
ghost use Rattle.layout.specs.Fields.Descriptor;
ghost use Rattle.layout.specs.Fields.Passport;
ghost use Rattle.layout.specs.Fields.{limit};
ghost use Rattle.layout.specs.Reading.Sheets.{sum_of, start};

use crate::texts::HeadTexts;
use fields::{copies, numbers, sums, texts};
use layout::{descriptor, passport};

// The passport up to its date, with 0 for the sum, which is not known before the rest is there.
fn emit_start(date: &[u8], out: &mut [u8])
    requires { (length date.now < (Passport.date).width) × ((Passport.designation).place ≤ length out.old) }
    ensures { out.new ≡ sets out.old 0 (start_bytes date.now) }
{
    numbers::put::<u32>(out, passport::IDENTIFIER, passport::IDENTIFIER_IS);
    numbers::put::<u32>(out, passport::OWN_LENGTH, passport::OWN_LENGTH_IS);
    numbers::put::<u32>(out, passport::EDITION, passport::EDITION_IS);
    numbers::put::<u32>(out, passport::SUM, 0);
    texts::put_text(date, passport::DATE_WIDTH, out, passport::DATE);
}

// The passport from its designation on.
fn emit_names(designation: &[u8], scale: u32, title: &[u8], rest: &[u8], out: &mut [u8])
    requires { (length designation.now < (Passport.designation).width) × (length title.now < (Passport.title).width)
        × (length rest.now ≡ (Passport.rest).width) × ((Descriptor.identifier).place ≤ length out.old) }
    ensures { out.new ≡ sets out.old (Passport.designation).place
        (name_bytes designation.now scale title.now rest.now) }
{
    texts::put_text(
        designation,
        passport::DESIGNATION_WIDTH,
        out,
        passport::DESIGNATION,
    );
    numbers::put::<u32>(out, passport::SCALE, scale);
    texts::put_text(title, passport::TITLE_WIDTH, out, passport::TITLE);
    copies::put_bytes(rest, 0, passport::REST_WIDTH, out, passport::REST);
}

fn emit_descriptor(designation2: &[u8], count: u32, carried: &[u8], out: &mut [u8])
    requires { (length designation2.now < (Descriptor.designation).width) × (length carried.now ≡ (Descriptor.carried).width)
        × (start ≤ length out.old) }
    ensures { out.new ≡ sets out.old (Descriptor.identifier).place
        (descriptor_bytes designation2.now count carried.now) }
{
    numbers::put::<u32>(out, descriptor::IDENTIFIER, descriptor::IDENTIFIER_IS);
    numbers::put::<u32>(out, descriptor::OWN_LENGTH, descriptor::OWN_LENGTH_IS);
    texts::put_text(
        designation2,
        descriptor::DESIGNATION_WIDTH,
        out,
        descriptor::DESIGNATION,
    );
    numbers::put::<u32>(out, descriptor::COUNT, count);
    copies::put_bytes(
        carried,
        0,
        descriptor::CARRIED_WIDTH,
        out,
        descriptor::CARRIED,
    );
    texts::put_zeros(out, descriptor::RESERVED, descriptor::RESERVED_WIDTH);
}

pub fn emit(t: HeadTexts, scale: u32, count: u32, out: &mut [u8])
    requires { Fits t × (start ≤ length out.old) }
    ensures { out.new ≡ sets out.old 0 (clean_head (head_in scale t.entry) count) }
{
    emit_start(t.date, out);
    emit_names(t.designation, scale, t.title, t.rest, out);
    emit_descriptor(t.designation2, count, t.carried, out);
}

// The sum of the first n bytes, which are a sheet but for its sum, goes to its field.
pub fn emit_sum(out: &mut [u8], n: usize)
    requires { ((Passport.date).place ≤ n) × (n ≤ length out.old) × (n ≤ limit) }
    ensures { out.new ≡ sets out.old (Passport.sum).place (bytes (Passport.sum).width (sum_of (take n out.old))) }
{
    let sum = sums::sheet_sum(&out[..n]);
    numbers::put::<u32>(out, passport::SUM, sum);
}
