// Whether a lent slice has what is stated, and is filled as before from there to its end.

// What the slices are filled with.
pub const FILL: u64 = 0xA5A5A5A5A5A5A5A5;

pub const FILL_BYTE: u8 = 0xA5;

fn is_as<T: Copy + PartialEq>(lent: &[T], stated: &[T], fill: T) -> bool {
    match lent.strip_prefix(stated) {
        Some(rest) => rest.iter().all(|x| *x == fill),
        None => false,
    }
}

// Each type has a filling of its own, which these two save their callers.
pub fn numbers_as(lent: &[u64], stated: &[u64]) -> bool {
    is_as(lent, stated, FILL)
}

pub fn bytes_as(lent: &[u8], stated: &[u8]) -> bool {
    is_as(lent, stated, FILL_BYTE)
}
