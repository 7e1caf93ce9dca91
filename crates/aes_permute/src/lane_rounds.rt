//! The two directions, round by round: Cipher, and EqInvCipher for InvCipher. `rounds` has both.

ghost use Rattle.std.specs.Prelude.{◌≡◌, ◌≤◌, ◌-◌, ℕ, Bool, List, length, map, replicate};
ghost use Rattle.std.specs.Prelude.{bit_xor};
ghost use Rattle.std.specs.Simd.Lanes.{zip2};
ghost use Rattle.aes_planes.specs.Fips197 as fips;
ghost use Rattle.aes_planes.specs.Rounds.{all_rounds};
ghost use Rattle.aes_permute.specs.Stored.{LaneForm};

use crate::lanes::Lanes;
use aes_cipher::cipher::Direction;

/// A direction on lanes: its rounds, and the round keys that they use. States and round keys are
/// kept in a basis of the direction's own.
pub trait LaneRounds: Direction {
    /// What a byte of a state stands for.
    ghost state_byte: { ℕ → ℕ };

    /// The form in which round keys are stored, and which of the standard's round keys the rounds
    /// use.
    ghost form: { LaneForm };

    /// Whether the rounds use the standard's list from its end.
    ghost BACKWARD: { Bool };

    /// Whether the rounds use the standard's list from its end.
    const BACKWARD: bool;

    /// Adds the first round key to each block, and returns the states.
    fn add_first_key<L: Lanes>(blocks: L, key: L) -> L
        ensures { (i : ℕ) → form.placed 0 (map state_byte (L.block result i))
            ≡ fips.add_round_key (L.block blocks i) (map form.first_byte (L.block key i)) };

    /// Runs a round that is not the last. `number` is its number.
    fn round<L: Lanes>(x: L, key: L, number: usize) -> L
        requires { 1 ≤ number }
        ensures { (i : ℕ) → form.placed number (map state_byte (L.block result i))
            ≡ fips.add_round_key
            (Self.step (form.placed (number - 1) (map state_byte (L.block x i))))
            (form.placed number (map form.inner_byte (L.block key i))) };

    /// Runs the last round, and returns the blocks. `number` is its number.
    fn last_round<L: Lanes>(x: L, key: L, number: usize) -> L
        requires { 1 ≤ number }
        ensures { (i : ℕ) → L.block result i
            ≡ fips.add_round_key
            (Self.last_step (form.placed (number - 1) (map state_byte (L.block x i))))
            (map form.last_byte (L.block key i)) };

    /// No effect; states that a round key may be added after a round with the key zero.
    fn keys_may_come_later()
        ensures { (n : ℕ) (s x key : List ℕ) → length x ≡ 16 → length key ≡ 16
            → form.placed n (map state_byte x)
            ≡ fips.add_round_key s (form.placed n (map form.inner_byte (replicate 16 0)))
            → form.placed n (map state_byte (zip2 bit_xor x key))
            ≡ fips.add_round_key s (form.placed n (map form.inner_byte key)) };

    /// No effect; states that the rounds use as many round keys as there are.
    fn rounds_use_every_key()
        ensures { (w : List (List ℕ)) → length (form.direction_keys w) ≡ length w };

    /// No effect; states that all rounds together do what the direction does.
    fn rounds_follow_the_standard()
        ensures { (w : List (List ℕ)) (b : List ℕ) → 2 ≤ length w
            → all_rounds Self.step Self.last_step (form.direction_keys w) b ≡ Self.processed w b };
}
