//! Values that are dropped only as zeros. Their owner has to wipe them first.

ghost use Rattle.std.specs.Prelude.{◌≡◌};

use super::Zeroize;
use std::marker::Model;

/// A value whose drop requires that it is zero. The prover refuses code that drops it without a
/// wipe. A `MustWipe` is neither `Copy` nor `Clone`. Contracts see the value.
pub struct MustWipe<V: Zeroize> {
    value: V,
}

impl<V: Zeroize> Model for MustWipe<V> {
    ghost Value = { V };

    ghost view = { λ kept. kept.value };
}

impl<V: Zeroize> MustWipe<V> {
    ghost use Rattle.std.specs.Borrow.{sem};
    ghost use Rattle.aes_cipher.specs.Lends.{lends_must_wipe};

    /// Makes a `MustWipe` of a value.
    #[inline(always)]
    pub fn new(value: V) -> MustWipe<V>
        ensures { result ≡ value }
    {
        MustWipe { value }
    }

    /// Returns zeros, to be written over.
    #[inline(always)]
    pub fn zeroed() -> MustWipe<V>
        ensures { result ≡ V.ZERO }
    {
        MustWipe::new(V::zero())
    }

    /// Lends the value.
    #[inline(always)]
    pub fn value(&self) -> &V
        ensures { result.now ≡ self.now }
    {
        &self.value
    }

    /// Lends the value to be written over.
    #[inline(always)]
    pub fn value_mut(&mut self) -> &mut V
        ensures* writes_back { sem 𝓛 (lends_must_wipe V.row V.Zeroize self.entry result) }
        ensures value { result.now ≡ self.old }
    {
        &mut self.value
    }

    /// Overwrites the value with zeros, in place.
    #[inline(always)]
    pub fn wipe(&mut self)
        ensures { self.new ≡ V.ZERO }
    {
        self.value.zeroize();
    }
}

impl<V: Zeroize> Drop for MustWipe<V> {
    #[inline(always)]
    fn drop(self)
        requires wiped { self ≡ V.ZERO }
    {
        let MustWipe { value: _ } = self;
    }
}
