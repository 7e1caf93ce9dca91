//! Long messages in each mode, and short inputs of the generator. What they become is compared by
//! its CMAC.

use super::cases::Mode;
use aes_cipher::aes::{AesCipher, Bits256, BothWays};
use aes_cipher::cipher::{Block, KeyInit};
use aes_hybrid::widths::Width128;
use aes_hybrid::{Aes256Enc, BothWaysKeys};
use cbc::Cbc;
use ccm::encrypt;
use cmac::tag;
use ctr_drbg::CtrDrbg;
use gcm::Gcm;
use gcm_siv::GcmSiv;
use key_wrap::{wrap, wrap_padded};
use standards::bytes::counted;

// The expected values are those of OpenSSL 4.0.0, by the Python package `cryptography`, and for the
// generator those of OpenSSL 3.0.22, its CTR-DRBG without a derivation function. NIST's own vectors
// have inputs of 0 or 48 bytes alone.

// How many bytes a message has: several batches, and a last block that isn't whole.
const LENGTH: usize = 5001;

// A CMAC, as a number. Its key begins with the counted bytes, as every key, nonce and message here.
fn digest(bytes: &[u8]) -> u128 {
    u128::from_be_bytes(tag(&<Aes256Enc>::new(&counted()), bytes))
}

// Whether a message in a mode becomes one of that digest and that tag, and comes back.
fn is_sealed<M: Mode>(mode: &M, encrypted: u128, tag: u128) -> bool {
    let plain = counted::<LENGTH>();
    let mut text = plain;
    let nonce = counted();
    let additional: [u8; 4999] = counted();
    let tag: Block = tag.to_be_bytes();
    mode.seal(&nonce, &additional, &mut text) == Some(tag)
        && digest(&text) == encrypted
        && mode.open(&nonce, &additional, &mut text, &tag)
        && text == plain
}

#[test]
fn messages(rt: HostRuntime) {
    let key: [u8; 32] = counted();
    assert!(rt; digest(&counted::<LENGTH>()) == 0x8b565f8f63fa6bd242d23afb9cfcd311);
    assert!(rt;
        is_sealed(
            &Gcm::new(<Aes256Enc>::new(&key)),
            0xb840a4fe8f8c54928ed807e2a9c8b0ec,
            0x88cee22389564ea2a3b1789058d0b18b
        )
    );
    assert!(rt;
        is_sealed(
            &GcmSiv::new(<Aes256Enc>::new(&key)),
            0x6ee5de98c784ce65f106adc16478457e,
            0x3d422c77fd817c65e39c92e864623c84
        )
    );
}

#[test]
fn a_message_of_ccm(rt: HostRuntime) {
    let mut text = counted::<LENGTH>();
    let additional: [u8; 4999] = counted();
    let mut tag = [0; 16];
    let cipher = <Aes256Enc>::new(&counted());
    let nonce: [u8; 12] = counted();
    assert!(rt; encrypt(&cipher, &nonce, &additional, &mut text, &mut tag).is_ok());
    assert!(rt; digest(&text) == 0x00335687b9e3f8b3726e3970d42c4965);
    assert!(rt; u128::from_be_bytes(tag) == 0x8a58104cb59df7e801a3f84f1edc504a);
}

// A chain of 313 blocks, a key of 512 semiblocks, and one of 4,099 bytes, padded.
#[test]
fn chains_and_keys(rt: HostRuntime) {
    let cipher = AesCipher::<BothWaysKeys<Bits256, Width128>, BothWays>::new(&counted());
    let bytes = counted::<5008>();
    let mut blocks: [Block; 313] = [[0; 16]; 313];
    for i in 0..bytes.len() {
        blocks[i / 16][i % 16] = bytes[i];
    }
    let mut chain = Cbc {
        previous: counted(),
    };
    chain.encrypt_blocks(&cipher, &mut blocks);
    assert!(rt; digest(blocks.as_flattened()) == 0x19ca43570b6929f7f04c86b5b158eebd);
    let mut key = [[0; 8]; 512];
    for i in 0..4096 {
        key[i / 8][i % 8] = bytes[i];
    }
    let mut sealed = [[0; 8]; 513];
    assert!(rt; wrap(&cipher, &key, &mut sealed).is_ok());
    assert!(rt; digest(sealed.as_flattened()) == 0xe7f794d470902244a237527bd715be3c);
    let long: [u8; 4099] = counted();
    let mut padded = [[0; 8]; 514];
    assert!(rt; wrap_padded(&cipher, &long, &mut padded).is_ok());
    assert!(rt; digest(padded.as_flattened()) == 0x5108fecacb677a1e75568ee480a44f46);
}

// The longest requests, with a personalization string of 20 bytes and additional inputs of 5 and
// 47.
#[test]
fn requests(rt: HostRuntime) {
    let entropy: [u8; 48] = counted();
    let mut output = [0; 1 << 16];
    let Ok(mut generator) = CtrDrbg::<Aes256Enc>::instantiate(&entropy, &entropy[..20]) else {
        assert!(rt; false);
        return;
    };
    assert!(rt; generator.generate(&entropy[..5], &mut output).is_ok());
    assert!(rt; digest(&output) == 0x43da5d741fdcfd44a4cac16a75b45154);
    assert!(rt; generator.generate(&entropy[..47], &mut output).is_ok());
    assert!(rt; digest(&output) == 0xd64e1488a6113bf9af6dc788afa92778);
}
