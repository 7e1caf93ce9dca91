//! The counter of S-box layers.

ghost use Rattle.std.specs.Prelude.{◌≡◌, ℕ, ◌+◌};
ghost use Rattle.std.specs.Borrow.{ftrue};

use std::marker::Model;

/// Counts the S-box layers that ran. A counter has no bytes, and only contracts see its number.
///
/// It is neither `Copy` nor `Clone`, and only the two circuits of this module add to one.
#[derive(Drop)]
pub struct Layers {
    tally: Tally,
}

const _: () = prove!(size_of::<Layers>() == 0);

impl Model for Layers {
    ghost Value = { ℕ };

    ghost view = { λ layers. layers.tally.count };
}

impl Layers {
    /// A counter at 0.
    #[inline(always)]
    pub fn new() -> Layers
        ensures { result ≡ 0 }
    {
        Layers {
            tally: Tally::new(),
        }
    }

    // Counts one layer.
    #[inline(always)]
    pub(super) fn count_one(&mut self)
        ensures { self.new ≡ self.old + 1 }
    {
        self.tally = Tally::after(&self.tally);
    }
}

// A number that only clauses see.
#[derive(Drop)]
struct Tally {
    ghost count: { ℕ },
}

impl Model for Tally {
    ghost also_owns = { λ _. ftrue };
}

impl Tally {
    #[inline(always)]
    fn new() -> Tally
        ensures { result.count ≡ 0 }
    {
        Tally {}
    }

    #[inline(always)]
    fn after(_before: &Tally) -> Tally
        ensures { result.count ≡ _before.now.count + 1 }
    {
        Tally {}
    }
}
