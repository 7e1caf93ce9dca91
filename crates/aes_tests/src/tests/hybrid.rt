//! What is particular to the types of `aes_hybrid`: both widths, and counter mode from a place on.

use super::forms::{Enc, Forms, Known, Trial, try_all};
use aes_cipher::aes::{AesCipher, Bits256, BothWays, KeySize};
use aes_cipher::cipher::{BlockCipherDecrypt, BlockCipherEncrypt, KeyInit};
use aes_ctr::add_keystream;
use aes_hybrid::BothWaysKeys;
use aes_hybrid::widths::{Width128, Width256};
use standards::keys::{KEY_256, PLAIN};
use std::test::Fail;

// Whether the keystream is the same whole and cut, and is removed if it is added once more.
fn adds_the_same_cut<C: BlockCipherEncrypt>(cipher: &C) -> bool {
    let iv = PLAIN.to_be_bytes();
    let mut whole = [0; 400];
    let mut cut = [0; 400];
    add_keystream(cipher, &iv, 5, &mut whole);
    add_keystream(cipher, &iv, 5, &mut cut[..30]);
    add_keystream(cipher, &iv, 35, &mut cut[30..]);
    let same = whole == cut;
    add_keystream(cipher, &iv, 5, &mut whole);
    same && whole == [0; 400]
}

struct Cuts;

impl Trial for Cuts {
    fn passes<F: Forms>(&self, known: &Known) -> Result<bool, Fail> {
        Ok(Enc::<F>::new_from_slice(known.key).is_ok_and(|cipher| adds_the_same_cut(&cipher)))
    }
}

#[test]
fn adds_the_same_keystream_whole_and_cut(rt: HostRuntime) -> Result<(), Fail> {
    try_all(&rt, &Cuts)
}

// Whether each count of blocks up to 48 comes out the same in both widths, and comes back.
fn widths_agree<N, S>(narrow: &N, sixteens: &S) -> bool
where
    N: BlockCipherEncrypt,
    S: BlockCipherEncrypt + BlockCipherDecrypt,
{
    let mut plain = [[0; 16]; 48];
    for i in 0..48 {
        plain[i][0] = i as u8;
    }
    for count in 0..=48 {
        let mut blocks = plain;
        let mut others = plain;
        narrow.encrypt_blocks(&mut blocks[..count]);
        sixteens.encrypt_blocks(&mut others[..count]);
        if blocks != others {
            return false;
        }
        sixteens.decrypt_blocks(&mut others[..count]);
        if others != plain {
            return false;
        }
    }
    true
}

// The types for both directions, with the size as a parameter.
fn types_agree<K: KeySize>(key: &K::Key) -> bool {
    widths_agree(
        &AesCipher::<BothWaysKeys<K, Width128>, BothWays>::new(key),
        &AesCipher::<BothWaysKeys<K, Width256>, BothWays>::new(key),
    )
}

#[test]
fn both_widths_answer_the_same_for_every_count(rt: HostRuntime) {
    assert!(rt; types_agree::<Bits256>(&KEY_256));
}
