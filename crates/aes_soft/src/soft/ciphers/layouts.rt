//! The layouts: how many ShiftRows are deferred at a round key.
ghost use Rattle.std.specs.Prelude.{◌≡◌, ◌⊎◌, ℕ};
ghost use Rattle.std.proofs.Common.{inl, inr, refl};

/// A layout of round keys. At round key i, as many ShiftRows are deferred as the remainder of i by
/// the period. At the last round key none is.
pub trait Layout {
    /// The period, in rounds.
    ghost PERIOD: { ℕ };

    /// The period, in rounds.
    const PERIOD: usize;

    /// At most one ShiftRows is deferred, or at most three.
    ghost two_or_four: { (PERIOD ≡ 2) ⊎ (PERIOD ≡ 4) };
}

/// The full layout: after four rounds none are deferred.
pub struct Full;

/// The compact layout: after two rounds none are deferred.
pub struct Compact;

impl Layout for Full {
    ghost PERIOD = { 4 };

    const PERIOD: usize = 4;

    ghost two_or_four = { inr refl };
}

impl Layout for Compact {
    ghost PERIOD = { 2 };

    const PERIOD: usize = 2;

    ghost two_or_four = { inl refl };
}
