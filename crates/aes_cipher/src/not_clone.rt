//! Types whose values are never copied: keys, and types that give out each nonce once.

use crate::zeroize::{MustWipe, Wiped, Zeroize};

/// Marks a type whose values are never copied. Each type that can be cloned or copied has the mark
/// already, by the `impl` below. So `impl NotClone for Counter {}` is refused, as a conflict, once
/// `Counter` is `Clone`.
pub trait NotClone {}

impl<T: Clone> NotClone for T {}

impl<V: Zeroize> NotClone for MustWipe<V> {}

impl<V: Zeroize> NotClone for Wiped<V> {}
