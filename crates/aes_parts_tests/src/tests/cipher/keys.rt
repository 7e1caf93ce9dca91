//! A type that is made from a key, and the lengths of slices that it refuses.

ghost use Rattle.std.specs.Prelude.{◌≡◌, length, refl};
ghost use Rattle.aes_planes.specs.Fips197 as fips;
ghost use Rattle.aes_planes.proofs.Standard.CipherLaws.{two_expanded};

use aes_cipher::cipher::{BlockSizeUser, InvalidLength, KeyInit, KeySizeUser, RoundKeysUser};
use aes_planes::laws;

// A key of three bytes, and nothing else.
#[derive(Drop)]
struct Plain {
    key: [u8; 3],
}

// The bytes of a key are bytes.
fn has_bytes(key: [u8; 3])
    ensures sized { length key ≡ 3 }
    ensures bytes { fips.IsBytes key }
{}

impl KeySizeUser for Plain {
    type Key = [u8; 3];

    ghost KEY_SIZE = { 3 };

    ghost key_bytes = { λ key. key };

    const KEY_SIZE: usize = 3;
}

impl RoundKeysUser for Plain {
    ghost round_keys = { λ plain. fips.key_expansion plain.key };

    fn round_keys_are_blocks(&self) {
        has_bytes(self.key);
        laws::expanded_keys();
    }

    ghost two_round_keys = { λ plain. two_expanded plain.key };
}

impl KeyInit for Plain {
    ghost own_key = { λ plain. plain.key };

    fn new(key: &[u8; 3]) -> Plain {
        Plain { key: *key }
    }

    fn new_from_slice(key: &[u8]) -> Result<Plain, InvalidLength> {
        match <[u8; 3]>::try_from(key) {
            Ok(key) => Ok(Plain::new(&key)),
            Err(_) => Err(InvalidLength),
        }
    }

    fn key_has_its_size(&self) {
        has_bytes(self.key);
    }

    ghost expanded = { λ plain. refl };
}

// Whether a slice is refused as a key.
fn is_refused<K: KeyInit + Drop>(key: &[u8]) -> bool {
    K::new_from_slice(key).is_err()
}

#[test]
fn keys_of_another_length_are_refused(rt: HostRuntime) {
    assert!(rt; Plain::KEY_SIZE == 3);
    assert!(rt; Plain::BLOCK_SIZE == 16);
    assert!(rt; is_refused::<Plain>(&[]));
    assert!(rt; is_refused::<Plain>(&[1, 2]));
    assert!(rt; is_refused::<Plain>(&[1, 2, 3, 4]));
    assert!(rt; !is_refused::<Plain>(&[1, 2, 3]));
}
