//! The callers of counter mode, on the standard's example, and a cipher that no key expands to.

mod two_keys;

use aes::FixslicedAes;
use aes_callers::by_backend::ByBackend;
use aes_callers::counter_mode::{apply_at, apply_then_encrypt, apply_to_parts, there_and_back};
use aes_cipher::aes::{Bits128, KeySize};
use aes_cipher::cipher::{BlockCipherEncrypt, Encrypt, KeyInit};
use aes_ctr::Ctr128BE;
use standards::counter::{ENCRYPTED, IV, PLAIN};
use standards::keys::KEY_A1;
use two_keys::TwoKeys;

// Whether a message comes back by the type of `aes` for a size.
fn comes_back<K: KeySize>(key: &K::Key) -> bool {
    let mut bytes = PLAIN;
    there_and_back::<FixslicedAes<K, Encrypt>>(key, IV.to_be_bytes(), &mut bytes).is_ok()
        && bytes == PLAIN
}

#[test]
fn a_message_comes_back(rt: HostRuntime) {
    assert!(rt; comes_back::<Bits128>(&KEY_A1));
}

// Whether a message in two parts moves the position past both.
fn takes_two_parts<C: BlockCipherEncrypt>(cipher: &C) -> bool {
    let mut mode = Ctr128BE::new(cipher, IV.to_be_bytes());
    let mut rest = [0; 27];
    let mut head = [0; 5];
    apply_to_parts(&mut mode, &mut head, &mut rest).is_ok() && mode.position() == 32
}

// Whether the message is encrypted from each of some positions on, and the keystream ends where it
// should.
fn starts_at_any_position<C: BlockCipherEncrypt>(cipher: &C) -> bool {
    let mut right = true;
    for at in [0, 1, 15, 16, 17, 31, 32] {
        let mut bytes = PLAIN;
        right &= apply_at(cipher, IV.to_be_bytes(), at as u64, &mut bytes[at..]).is_ok();
        right &= bytes[..at] == PLAIN[..at] && bytes[at..] == ENCRYPTED[at..];
    }
    let mut end = [0; 2];
    right &= apply_at(cipher, [0; 16], u64::MAX - 1, &mut end[..1]).is_ok();
    right & apply_at(cipher, [0; 16], u64::MAX - 1, &mut end).is_err()
}

// Whether a cipher that counter mode gives back encrypts as before.
fn gives_its_cipher_back<C: BlockCipherEncrypt>(cipher: &C) -> bool {
    let mut bytes = PLAIN;
    let mut block = IV.to_be_bytes();
    let back = apply_then_encrypt(cipher, IV.to_be_bytes(), &mut bytes, &mut block);
    let mut wanted = IV.to_be_bytes();
    cipher.encrypt_block(&mut wanted);
    back.is_ok() && bytes == ENCRYPTED && block == wanted
}

// Whether the callers that take a cipher answer, each by its name. With the size as a parameter,
// the type of `aes` is proved to be a cipher once.
fn answers_of<K: KeySize>(key: &K::Key) -> [(&'static str, bool); 3] {
    let cipher = FixslicedAes::<K, Encrypt>::new(key);
    [
        ("apply_to_parts", takes_two_parts(&cipher)),
        ("apply_at", starts_at_any_position(&cipher)),
        ("apply_then_encrypt", gives_its_cipher_back(&cipher)),
    ]
}

#[test]
fn callers_with_a_cipher_answer(rt: HostRuntime) {
    for (caller, right) in answers_of::<Bits128>(&KEY_A1) {
        assert!(rt; right, "{caller}");
    }
}

// A cipher that no key expands to: counter mode depends on the trait alone.
#[test]
fn adds_what_the_cipher_of_the_counter_is(rt: HostRuntime) {
    let cipher = ByBackend {
        backend: TwoKeys {
            first: KEY_A1,
            last: IV.to_be_bytes(),
        },
    };
    let mut want = [0; 40];
    for i in 0..40 {
        let mut block = u128::MAX.wrapping_add((i / 16) as u128).to_be_bytes();
        cipher.encrypt_block(&mut block);
        want[i] = block[i % 16];
    }
    let mut bytes = [0; 40];
    assert!(rt;
        Ctr128BE::new(cipher, [255; 16])
            .try_apply(&mut bytes)
            .is_ok()
    );
    assert!(rt; bytes == want);
}
