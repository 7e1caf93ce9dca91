//! Seeds, which are wiped: entropy input and other strings as 48 bytes.

ghost use Rattle.std.specs.Prelude.{◌≡◌, ◌≢◌, ◌↔◌, ◌⊎◌, ◌<◌, ◌≤◌, length, replicate, IsErr};
ghost use Rattle.std.specs.Prelude.{IsErrOf};
ghost use Rattle.ctr_drbg.specs.CtrDrbg.{seed_padded, exclusive_or};

use crate::errors::InvalidSeed;
use aes_cipher::zeroize::Element;

/// How many bytes entropy input has, and other strings at most: seedlen (10.2.1, table 3).
pub const SEED_LENGTH: usize = 48;

/// The bytes of a seed.
#[derive(Clone, Copy)]
pub(crate) struct Seed {
    pub(crate) bytes: [u8; SEED_LENGTH],
}

impl Element for Seed {
    ghost ZERO = { record { bytes = replicate 48 0 } };

    #[inline(always)]
    fn zero() -> Seed {
        Seed {
            bytes: [0; SEED_LENGTH],
        }
    }

    #[inline(always)]
    fn some_byte(self) -> u8 {
        self.bytes[0]
    }
}

/// Room for a seed.
pub(crate) type SeedRoom = [Seed; 1];

/// Writes a string over zeros.
#[tactic(auto, using(crate::proofs::Strings::written_over))]
pub(crate) fn put_padded(string: &[u8], seed: &mut [u8; SEED_LENGTH])
    requires { length string.now ≤ 48 }
    ensures { seed.new ≡ seed_padded string.now }
{
    *seed = [0; SEED_LENGTH];
    seed[..string.len()].copy_from_slice(string);
}

// Adds a string, followed by zeros.
#[tactic(auto, using(crate::proofs::Strings::added))]
fn add_padded(string: &[u8], seed: &mut [u8; SEED_LENGTH])
    requires { length string.now ≤ 48 }
    ensures { seed.new ≡ exclusive_or seed.old (seed_padded string.now) }
{
    for i in 0..string.len() {
        seed[i] ^= string[i];
    }
}

/// Returns why entropy input and another string are refused, if they are.
pub(crate) fn check_lengths(entropy_input: &[u8], string: &[u8]) -> Result<(), InvalidSeed>
    ensures entropy { IsErrOf result InvalidSeed.EntropyLength ↔ (length entropy_input.now ≢ 48) }
    ensures refusal { IsErr result ↔ ((length entropy_input.now ≢ 48) ⊎ (48 < length string.now)) }
{
    if entropy_input.len() != SEED_LENGTH {
        return Err(InvalidSeed::EntropyLength);
    }
    if string.len() > SEED_LENGTH {
        return Err(InvalidSeed::TooLong);
    }
    Ok(())
}

/// Writes seed_material: the entropy input plus a string, followed by zeros (10.2.1.3.1 and
/// 10.2.1.4.1, steps 1 to 3).
pub(crate) fn put_seed_material(entropy_input: &[u8], string: &[u8], seed: &mut [u8; SEED_LENGTH])
    requires entropy { length entropy_input.now ≡ 48 }
    requires fits { length string.now ≤ 48 }
    ensures { seed.new ≡ exclusive_or entropy_input.now (seed_padded string.now) }
{
    seed.copy_from_slice(entropy_input);
    add_padded(string, seed);
}
