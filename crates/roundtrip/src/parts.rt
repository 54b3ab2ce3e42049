// Parts of a slice. What would lie past its end is left out, or counts as zero.
use layout::{descriptor, passport};

pub fn start<T>(s: &[T], length: usize) -> &[T] {
    s.get(..length).unwrap_or(s)
}

pub fn part(s: &[u8], place: usize, length: usize) -> &[u8] {
    start(s.get(place..).unwrap_or(&[]), length)
}

fn bytes_from<const N: usize>(s: &[u8], place: usize) -> [u8; N] {
    let after = s.get(place..).unwrap_or(&[]);
    std::array::from_fn(|i| after.get(i).copied().unwrap_or(0))
}

// The 304 bytes from 96 on, as the writer takes them.
pub fn rest_of(s: &[u8]) -> [u8; passport::REST_WIDTH] {
    bytes_from(s, passport::REST)
}

// The four bytes at 444.
pub fn carried_of(s: &[u8]) -> [u8; descriptor::CARRIED_WIDTH] {
    bytes_from(s, descriptor::CARRIED)
}
