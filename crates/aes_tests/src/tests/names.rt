//! What is written as text: names, and nothing of a key.

use super::copies::encrypts;
use super::forms::{Both, Dec, Enc, Forms, Known, Trial, try_all};
use aes_cipher::cipher::{AlgorithmName, BlockCipherEncrypt, KeyInit};
use std::fmt;
use std::fmt::Write;
use std::marker::PhantomData;
use std::test::Fail;

// A type, whose name is written.
struct Named<A> {
    of: PhantomData<A>,
}

impl<A: AlgorithmName> fmt::Display for Named<A> {
    fn fmt<W: fmt::Write>(&self, f: &mut fmt::Formatter<W>) -> fmt::Result {
        A::write_alg_name(f)
    }
}

// A page with room for some bytes, at most sixteen. It refuses a text that needs more.
#[derive(Drop)]
struct Page {
    bytes: [u8; 16],
    length: usize,
    room: usize,
}

impl Page {
    fn with_room(room: usize) -> Page {
        Page {
            bytes: [0; 16],
            length: 0,
            room,
        }
    }
}

impl fmt::Write for Page {
    fn write_str(&mut self, text: &str) -> fmt::Result {
        for byte in text.as_bytes() {
            if self.length >= self.room || self.length >= 16 {
                return Err(fmt::Error);
            }
            self.bytes[self.length] = *byte;
            self.length += 1;
        }
        Ok(())
    }
}

// Whether a type's name is the one that is given, and a value writes the name and dots.
fn is_named<C>(cipher: &C, name: &str, suffix: &str) -> bool
where
    C: AlgorithmName + fmt::Debug,
{
    let mut wanted = Page::with_room(16);
    let mut named = Page::with_room(16);
    let mut right = write!(wanted, "{name}{suffix}").is_ok()
        && write!(named, "{}", Named::<C> { of: PhantomData }).is_ok();
    right &= named.length == wanted.length && named.bytes == wanted.bytes;
    let mut written = Page::with_room(16);
    right &= write!(wanted, " {{ .. }}").is_ok() && write!(written, "{cipher:?}").is_ok();
    right && written.length == wanted.length && written.bytes == wanted.bytes
}

// Whether the three types of a size have the name of the first, and those of one direction a longer
// one.
fn are_named<B, E, D>(both: &B, enc: &E, dec: &D, name: &str) -> bool
where
    B: AlgorithmName + fmt::Debug,
    E: AlgorithmName + fmt::Debug,
    D: AlgorithmName + fmt::Debug,
{
    is_named(both, name, "") && is_named(enc, name, "Enc") && is_named(dec, name, "Dec")
}

// Whether a value is written exactly if there is room for its sixteen bytes, as for
// `Aes256Enc { .. }`, and its name if there is room for nine. The value has to encrypt as before.
fn needs_room<C>(cipher: &C, encrypted: u128) -> bool
where
    C: BlockCipherEncrypt + AlgorithmName + fmt::Debug,
{
    let mut right = true;
    for room in 0..17usize {
        let mut page = Page::with_room(room);
        right &= write!(page, "{cipher:?}").is_ok() == (room == 16);
        let mut page = Page::with_room(room);
        right &= write!(page, "{}", Named::<C> { of: PhantomData }).is_ok() == (room >= 9);
        right &= encrypts(cipher, encrypted);
    }
    right
}

struct Names;

impl Trial for Names {
    fn passes<F: Forms>(&self, known: &Known) -> Result<bool, Fail> {
        let (Ok(both), Ok(enc), Ok(dec)) = (
            Both::<F>::new_from_slice(known.key),
            Enc::<F>::new_from_slice(known.key),
            Dec::<F>::new_from_slice(known.key),
        ) else {
            return Ok(false);
        };
        Ok(are_named(&both, &enc, &dec, known.name) && needs_room(&enc, known.encrypted))
    }
}

#[test]
fn writes_names_where_there_is_room(rt: HostRuntime) -> Result<(), Fail> {
    try_all(&rt, &Names)
}
