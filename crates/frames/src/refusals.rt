//! What a writing view answers where it refuses the bytes that are lent to it.

/// Why bytes were refused, and the bytes as they were.
#[derive(Drop)]
pub struct Refused<'a, F> {
    pub fault: F,
    pub bytes: &'a mut [u8],
}
