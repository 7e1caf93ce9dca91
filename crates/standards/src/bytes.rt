//! Bytes for tests that compare results, and need no values of a standard.

/// The bytes 0 to 250, again and again.
pub fn counted<const N: usize>() -> [u8; N] {
    let mut bytes = [0; N];
    for i in 0..N {
        bytes[i] = (i % 251) as u8;
    }
    bytes
}
