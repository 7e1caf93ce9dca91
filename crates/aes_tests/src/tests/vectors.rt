//! Worked examples of the standards, by each call on blocks and each type.

use super::forms::{CipherTrial, Forms, Known, Trial, pass_under, try_all};
use aes::{Block, hardware_accelerated};
use aes_cipher::cipher::{BlockCipherDecrypt, BlockCipherEncrypt};
use standards::blocks::{ENCRYPTED_128, ENCRYPTED_192, ENCRYPTED_256, PLAIN, blocks};
use standards::keys::{KEY_A1, KEY_A2, KEY_A3};
use standards::single_blocks::EXAMPLES;
use std::test::Fail;

// Encrypts a block in place, and from one buffer to another.
fn encrypted<C: BlockCipherEncrypt>(cipher: &C, block: u128) -> (u128, u128) {
    let input = block.to_be_bytes();
    let mut in_place = input;
    cipher.encrypt_block(&mut in_place);
    let mut output = [0xee; 16];
    cipher.encrypt_block_b2b(&input, &mut output);
    (u128::from_be_bytes(in_place), u128::from_be_bytes(output))
}

// Decrypts a block in place, and from one buffer to another.
fn decrypted<C: BlockCipherDecrypt>(cipher: &C, block: u128) -> (u128, u128) {
    let input = block.to_be_bytes();
    let mut in_place = input;
    cipher.decrypt_block(&mut in_place);
    let mut output = [0xee; 16];
    cipher.decrypt_block_b2b(&input, &mut output);
    (u128::from_be_bytes(in_place), u128::from_be_bytes(output))
}

// A block and its encryption.
#[derive(Drop)]
struct Pair {
    plain: u128,
    cipher: u128,
}

impl CipherTrial for Pair {
    fn passes<B, E, D>(&self, both: &B, encrypts: &E, decrypts: &D) -> bool
    where
        B: BlockCipherEncrypt + BlockCipherDecrypt,
        E: BlockCipherEncrypt,
        D: BlockCipherDecrypt,
    {
        encrypted(both, self.plain) == (self.cipher, self.cipher)
            && encrypted(encrypts, self.plain) == (self.cipher, self.cipher)
            && decrypted(both, self.cipher) == (self.plain, self.plain)
            && decrypted(decrypts, self.cipher) == (self.plain, self.plain)
    }
}

// The examples whose keys have the size.
struct Examples;

impl Trial for Examples {
    fn passes<F: Forms>(&self, known: &Known) -> Result<bool, Fail> {
        let mut right = true;
        for (key, plain, cipher) in EXAMPLES {
            if key.len() == known.key.len() {
                right &= pass_under::<F, Pair>(key, &Pair { plain, cipher });
            }
        }
        Ok(right)
    }
}

#[test]
fn leaves_the_blocks_of_the_standards(rt: HostRuntime) -> Result<(), Fail> {
    try_all(&rt, &Examples)
}

// Four blocks, and their encryption.
#[derive(Drop)]
struct FourBlocks {
    plain: [Block; 4],
    encrypted: [Block; 4],
}

impl CipherTrial for FourBlocks {
    fn passes<B, E, D>(&self, both: &B, encrypts: &E, decrypts: &D) -> bool
    where
        B: BlockCipherEncrypt + BlockCipherDecrypt,
        E: BlockCipherEncrypt,
        D: BlockCipherDecrypt,
    {
        let mut by_both = self.plain;
        both.encrypt_blocks(&mut by_both);
        let mut by_each = self.plain;
        encrypts.encrypt_blocks(&mut by_each);
        let there = by_both == self.encrypted && by_each == self.encrypted;
        both.decrypt_blocks(&mut by_both);
        decrypts.decrypt_blocks(&mut by_each);
        there && by_both == self.plain && by_each == self.plain
    }
}

// SP 800-38A, F.1: four blocks under the keys of FIPS 197, appendix A.
struct Slices;

impl Trial for Slices {
    fn passes<F: Forms>(&self, known: &Known) -> Result<bool, Fail> {
        let (key, digits): (&[u8], &[u128; 4]) = match known.key.len() {
            16 => (&KEY_A1, &ENCRYPTED_128),
            24 => (&KEY_A2, &ENCRYPTED_192),
            _ => (&KEY_A3, &ENCRYPTED_256),
        };
        let four = FourBlocks {
            plain: blocks(&PLAIN),
            encrypted: blocks(digits),
        };
        Ok(pass_under::<F, FourBlocks>(key, &four))
    }
}

#[test]
fn leaves_the_four_blocks_of_the_standard(rt: HostRuntime) -> Result<(), Fail> {
    try_all(&rt, &Slices)
}

#[test]
fn runs_without_instructions_for_aes(rt: HostRuntime) {
    assert!(rt; !hardware_accelerated());
}
