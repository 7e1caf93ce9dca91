//! Words, and other values, that are overwritten with zeros when they are no longer needed.

ghost use Rattle.std.specs.Prelude.{◌≡◌, ℕ, false, length, map, replicate};

mod elements;
mod must_wipe;
mod stack;

use aes_planes::soft::word::Word;
pub use elements::{Element, zeroize_elements};
pub use must_wipe::MustWipe;
pub use stack::wipe_stack;
use std::convert::AsSlice;
use std::marker::Model;
use std::sync::atomic::{AtomicU64, Ordering};

/// A mark: what a value holds is overwritten with zeros when it is dropped.
pub trait ZeroizeOnDrop {}

/// A value that can be overwritten with zeros where it stands.
pub trait Zeroize: Drop {
    /// The value whose bits are all 0.
    ghost ZERO: { Self };

    /// Returns the value whose bits are all 0.
    fn zero() -> Self
        ensures { result ≡ ZERO };

    /// Overwrites the value with zeros, in place.
    fn zeroize(&mut self)
        ensures { self.new ≡ ZERO };
}

impl<E: Element, const N: usize> Zeroize for [E; N] {
    ghost ZERO = { replicate N E.ZERO };

    #[inline(always)]
    fn zero() -> [E; N] {
        [E::zero(); N]
    }

    fn zeroize(&mut self) {
        zeroize_elements::<E>(self);
    }
}

/// Sets every bit of every word to 0.
#[inline(never)]
pub fn zeroize_words<W: Word>(words: &mut [W])
    ensures { map W.bits words.new ≡ replicate (length words.old) (replicate W.BITS false) }
{
    wipe(words, W::zero(), |word| word.low_byte());
}

// Writes zeros over every element of a slice. `some_byte` returns some byte of an element.
//
// A compiler may leave out writes that nothing reads. Two measures prevent this. First, the two
// calls that use this function are never inlined, and exchange an atomic. The compiled code of
// their callers can't tell what they wrote, and can't leave them out. Second, an element is read
// before the writes and after them, at a place that comes out of the atomic. The place is 0, but
// neither of the two compilers finds this out. The bitwise and of the two bytes goes into the
// atomic. It is 0, since the second byte is, so no byte of a secret stays there.
//
// This function is inlined into the two calls. There the zero is known, and LLVM writes many zeros
// by `memset`. No clause says that the writes are kept; `evidence/wipe` searches memory for what is
// left.
#[inline(always)]
fn wipe<E: Copy, F: Fn(E) -> u8>(elements: &mut [E], zero: E, some_byte: F)
    requires { F.IsAlwaysCallable some_byte }
    ensures { elements.new ≡ replicate (length elements.old) zero }
{
    let seen = AtomicU64::new(0);
    let place = seen.load(Ordering::SeqCst) as usize;
    let before = observe(elements, place, &some_byte);
    overwrite(elements, zero);
    let after = observe(elements, place, &some_byte);
    seen.swap((before & after) as u64, Ordering::SeqCst);
}

// Returns some byte of the element at a place, if there is one.
#[inline(always)]
fn observe<E: Copy, F: Fn(E) -> u8>(elements: &[E], place: usize, some_byte: &F) -> u8
    requires { F.IsAlwaysCallable some_byte.now }
{
    if place < elements.len() {
        some_byte(elements[place])
    } else {
        0
    }
}

// Writes an element over every element of a slice.
#[tactic(auto, using(crate::proofs::Zeros::overwritten_more, crate::proofs::Zeros::overwritten_whole))]
#[inline(always)]
fn overwrite<E: Copy>(elements: &mut [E], element: E)
    ensures { elements.new ≡ replicate (length elements.old) element }
{
    for place in elements.iter_mut() {
        *place = element;
    }
}

/// A value that is overwritten with zeros when it is dropped. The value inside has a drop of its
/// own, which requires that it is zero by then. A `Wiped` is neither `Copy` nor `Clone`. Contracts
/// see the value.
pub struct Wiped<V: Zeroize> {
    inside: MustWipe<V>,
}

impl<V: Zeroize> Model for Wiped<V> {
    ghost Value = { V };

    ghost view = { λ wiped. wiped.inside };
}

impl<V: Zeroize> Wiped<V> {
    ghost use Rattle.std.specs.Borrow.{sem};
    ghost use Rattle.aes_cipher.specs.Lends.{lends_value};

    /// Makes a `Wiped` of a value.
    #[inline(always)]
    pub fn new(value: V) -> Wiped<V>
        ensures { result ≡ value }
    {
        Wiped {
            inside: MustWipe::new(value),
        }
    }

    /// Returns zeros, to be written over.
    #[inline(always)]
    pub fn zeroed() -> Wiped<V>
        ensures { result ≡ V.ZERO }
    {
        Wiped::new(V::zero())
    }

    /// Lends the value.
    #[inline(always)]
    pub fn value(&self) -> &V
        ensures { result.now ≡ self.now }
    {
        self.inside.value()
    }

    /// Overwrites the value with zeros.
    #[inline(always)]
    pub fn wipe(&mut self)
        ensures { self.new ≡ V.ZERO }
    {
        self.inside.wipe();
    }

    /// Lends the value to be written over.
    #[inline(always)]
    pub fn value_mut(&mut self) -> &mut V
        ensures* writes_back { sem 𝓛 (lends_value V.row V.Zeroize self.entry result) }
        ensures value { result.now ≡ self.old }
    {
        self.inside.value_mut()
    }
}

impl<V: Zeroize + Copy> Wiped<V> {
    /// Returns a copy of the value, which is wiped separately.
    pub fn copy(&self) -> Wiped<V>
        ensures { result ≡ self.now }
    {
        Wiped::new(*self.value())
    }
}

impl<T, V: Zeroize + AsSlice<T>> AsSlice<T> for Wiped<V> {
    ghost items = { λ wiped. V.items wiped };

    #[inline(always)]
    fn as_slice(&self) -> &[T] {
        V::as_slice(self.value())
    }
}

impl<V: Zeroize> Drop for Wiped<V> {
    #[inline(always)]
    fn drop(mut self) {
        self.wipe();
        let Wiped { inside: _ } = self;
    }
}

impl<V: Zeroize> ZeroizeOnDrop for Wiped<V> {}
