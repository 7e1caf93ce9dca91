//! Counter mode.

ghost use Rattle.std.specs.Prelude.{◌≡◌, ◌↔◌, ◌+◌, ◌-◌, ◌^◌, ◌<◌, length, IsErr, OnOk, OnErr};
ghost use Rattle.aes_ctr.specs.CounterMode.{keystream_byte, plus_stream};

use crate::add_in_batches::add_keystream;
use crate::errors::KeystreamEnd;
use aes_cipher::cipher::{Block, BlockCipherEncrypt};
use aes_cipher::not_clone::NotClone;
use std::marker::Model;

/// Counter mode over a cipher (SP 800-38A, 6.5). The counter is the whole block, a number with its
/// highest byte first, modulo 2^128. Contracts see a value as its cipher, the cipher's round keys,
/// the initial counter block and the position.
#[derive(Drop)]
pub struct Ctr128BE<C: BlockCipherEncrypt> {
    cipher: C,
    iv: Block,
    position: u64,
}

impl<C: BlockCipherEncrypt> Model for Ctr128BE<C> {
    ghost use Rattle.aes_ctr.specs.CounterMode.{CounterMode};

    ghost Value = { CounterMode C };

    ghost view = { λ mode. record {
      cipher = mode.cipher;
      round_keys = C.round_keys mode.cipher;
      iv = mode.iv;
      position = mode.position;
    } };
}

impl<C: BlockCipherEncrypt> NotClone for Ctr128BE<C> {}

impl<C: BlockCipherEncrypt> Ctr128BE<C> {
    /// Makes counter mode over a cipher from an initial counter block on, at position 0. A cipher
    /// may be lent: `Ctr128BE::new(&cipher, iv)`.
    pub fn new(cipher: C, iv: Block) -> Self
        ensures round_keys { result.round_keys ≡ C.round_keys cipher }
        ensures iv { result.iv ≡ iv }
        ensures position { result.position ≡ 0 }
        ensures cipher { result.cipher ≡ cipher }
    {
        Ctr128BE::new_at(cipher, iv, 0)
    }

    /// Makes counter mode over a cipher from an initial counter block on, at a position: the place
    /// of the next byte in the keystream.
    pub fn new_at(cipher: C, iv: Block, position: u64) -> Self
        ensures round_keys { result.round_keys ≡ C.round_keys cipher }
        ensures iv { result.iv ≡ iv }
        ensures position { result.position ≡ position }
        ensures cipher { result.cipher ≡ cipher }
    {
        Ctr128BE {
            cipher,
            iv,
            position,
        }
    }

    /// Moves to a position: the place of the next byte in the keystream.
    pub fn seek(&mut self, position: u64)
        ensures position { self.new.position ≡ position }
        ensures round_keys { self.new.round_keys ≡ self.old.round_keys }
        ensures iv { self.new.iv ≡ self.old.iv }
        ensures cipher { self.new.cipher ≡ self.old.cipher }
    {
        self.position = position;
    }

    /// Returns the cipher.
    pub fn into_inner(self) -> C
        ensures round_keys { C.round_keys result ≡ self.round_keys }
        ensures cipher { result ≡ self.cipher }
    {
        let Ctr128BE {
            cipher,
            iv: _,
            position: _,
        } = self;
        cipher
    }

    /// Returns the position of the next byte of the keystream.
    pub fn position(&self) -> u64
        ensures { result ≡ self.now.position }
    {
        self.position
    }

    /// Adds the keystream to bytes, from the position on, and moves the position on by as many
    /// bytes (SP 800-38A, 6.5). Several calls, one after another, do what one call does on all the
    /// bytes: see `stream_cut`.
    ///
    /// # Errors
    ///
    /// `KeystreamEnd` exactly if the position would exceed 2^64 - 1; bytes and position are then
    /// unchanged.
    pub fn try_apply(&mut self, bytes: &mut [u8]) -> Result<(), KeystreamEnd>
        ensures refusal { IsErr result ↔ (2 ^ 64 - 1 < self.old.position + length bytes.old) }
        ensures added { OnOk result
            (bytes.new ≡ plus_stream (keystream_byte self.old.round_keys self.old.iv)
            self.old.position bytes.old) }
        ensures moved { OnOk result (self.new.position ≡ self.old.position + length bytes.old) }
        ensures round_keys { self.new.round_keys ≡ self.old.round_keys }
        ensures iv { self.new.iv ≡ self.old.iv }
        ensures cipher { self.new.cipher ≡ self.old.cipher }
        ensures unmoved { OnErr result (self.new.position ≡ self.old.position) }
        ensures untouched { OnErr result (bytes.new ≡ bytes.old) }
    {
        if bytes.len() as u64 > u64::MAX - self.position {
            return Err(KeystreamEnd);
        }
        add_keystream(&self.cipher, &self.iv, self.position, bytes);
        self.position += bytes.len() as u64;
        Ok(())
    }
}
