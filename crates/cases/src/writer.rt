// The call of `writing`.
use crate::calls::{low_word, room, setting_of};
use crate::form::{Bytes, Form};
use crate::lists::List;
use crate::print::{FILL_BYTE, Numbers, answer};
use layout::{Refusal, descriptor, passport};
use reading::setting::Setting;
use std::io;
use writing::sheets;

// The first bytes of a list; those not given are zeros.
fn first_bytes<const N: usize>(bytes: &[u8]) -> [u8; N] {
    std::array::from_fn(|i| bytes.get(i).copied().unwrap_or(0))
}

pub fn rest_of(form: &Form, bytes: &Bytes) -> [u8; passport::REST_WIDTH] {
    first_bytes(form.bytes(bytes, List::Rest))
}

// The length that was written.
fn written(form: &Form, bytes: &Bytes, at: Setting, out: &mut [u8]) -> Result<usize, Refusal> {
    let rest = rest_of(form, bytes);
    let carried = first_bytes(form.bytes(bytes, List::Carried));
    sheets::write(
        form.bytes(bytes, List::Date),
        form.bytes(bytes, List::Designation),
        low_word(form.first(List::Scale)),
        form.bytes(bytes, List::Title),
        &rest,
        form.bytes(bytes, List::Designation2),
        &carried,
        form.values(List::Table),
        form.values(List::Elements),
        form.bytes(bytes, List::Bytes),
        at,
        out,
    )
}

// Each byte of the lent memory that is not the sheet's or, from the length on, not what it was before the call.
fn differences(rt: &impl Print, out: &[u8], sheet: &[u8], length: usize) -> io::Result<()> {
    for (place, byte) in out.iter().copied().enumerate() {
        let stated = if place < length {
            sheet.get(place).copied().unwrap_or(0)
        } else {
            FILL_BYTE
        };
        if byte != stated {
            print!(rt; " @{}", Numbers(&[place as u64, u64::from(byte)]))?;
        }
    }
    Ok(())
}

// Into so much memory. What a refusal leaves is to be as it was.
fn write_at(rt: &impl Print, form: &Form, bytes: &Bytes, at: Setting, n: u64) -> io::Result<()> {
    let mut out = [FILL_BYTE; 1024];
    let length = written(form, bytes, at, &mut out[..room(n, 1024)]);
    answer(rt, length)?;
    differences(
        rt,
        &out,
        form.bytes(bytes, List::Sheet),
        length.unwrap_or(0),
    )
}

pub fn write(rt: &impl Print, form: &Form, bytes: &Bytes, year: u64, n: u64) -> io::Result<()> {
    match setting_of(year) {
        Ok(at) => write_at(rt, form, bytes, at, n),
        Err(r) => answer(rt, r),
    }
}
