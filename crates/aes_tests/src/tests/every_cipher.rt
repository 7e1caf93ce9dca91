//! Every cipher of the library: the types of all crates, and ciphers that work round by round, by
//! their backends.

ghost use Rattle.std.specs.Prelude.{◌≡◌, ◌⊎◌};

use super::forms::{CipherTrial, Forms, Known, Trial, pass_under, try_all};
use aes::Block;
use aes::expansion::{expand_128, expand_192, expand_256};
use aes_callers::by_backend::ByBackend;
use aes_cipher::cipher::{
    BlockCipherDecrypt, BlockCipherEncrypt, CipherIn, Decrypt, Direction, Encrypt,
};
use aes_rounds::rounds::{Aes, AesDec, AesEnc};
use standards::keys::{KEY_128, KEY_192, KEY_256};
use std::process::Abort;
use std::test::Fail;

/// What is tried with a cipher in one direction.
pub trait DirectionTrial {
    /// Whether the cipher passes.
    fn passes<D: Direction, C: CipherIn<D>>(&self, cipher: &C) -> bool;
}

// What is tried with the three ciphers of a key, in each direction that they have.
#[derive(Drop)]
struct EachDirection<'a, T> {
    trial: &'a T,
}

impl<T: DirectionTrial> CipherTrial for EachDirection<'_, T> {
    fn passes<B, E, D>(&self, both: &B, encrypts: &E, decrypts: &D) -> bool
    where
        B: BlockCipherEncrypt + BlockCipherDecrypt,
        E: BlockCipherEncrypt,
        D: BlockCipherDecrypt,
    {
        self.trial.passes::<Encrypt, B>(both)
            && self.trial.passes::<Decrypt, B>(both)
            && self.trial.passes::<Encrypt, E>(encrypts)
            && self.trial.passes::<Decrypt, D>(decrypts)
    }
}

// What is tried with the three ciphers of a key, on the types of a crate.
#[derive(Drop)]
struct ByType<'a, T> {
    trial: &'a T,
}

impl<T: CipherTrial> Trial for ByType<'_, T> {
    fn passes<F: Forms>(&self, known: &Known) -> Result<bool, Fail> {
        Ok(pass_under::<F, T>(known.key, self.trial))
    }
}

// Whether the ciphers that consist of single rounds pass.
fn pass_by_rounds<T: CipherTrial, const RK: usize>(trial: &T, round_keys: &[Block; RK]) -> bool
    requires { (RK ≡ 11) ⊎ (RK ≡ 13) ⊎ (RK ≡ 15) }
{
    trial.passes(
        &ByBackend {
            backend: Aes::new(round_keys),
        },
        &ByBackend {
            backend: AesEnc::new(round_keys),
        },
        &ByBackend {
            backend: AesDec::new(round_keys),
        },
    )
}

/// Asserts that every cipher passes in each of its directions.
pub fn try_every_cipher<T: DirectionTrial>(rt: &impl Abort, trial: &T) -> Result<(), Fail> {
    let trial = &EachDirection { trial };
    try_all(rt, &ByType { trial })?;
    assert!(rt;
        pass_by_rounds(trial, &expand_128(&KEY_128)),
        "11 round keys"
    );
    assert!(rt;
        pass_by_rounds(trial, &expand_192(&KEY_192)),
        "13 round keys"
    );
    assert!(rt;
        pass_by_rounds(trial, &expand_256(&KEY_256)),
        "15 round keys"
    );
    Ok(())
}
