//! Messages in counter mode: there and back, in two parts, and from any position.

ghost use Rattle.std.specs.Prelude.{◌≡◌, ◌↔◌, ◌+◌, ◌-◌, ◌^◌, ◌<◌, ◌++◌, length, IsErr, IfOk, OnOk};
ghost use Rattle.std.specs.Prelude.{OnErr};
ghost use Rattle.aes_planes.specs.Fips197 as fips;
ghost use Rattle.aes_ctr.specs.CounterMode.{keystream_byte, plus_stream};

use aes_cipher::cipher::{Block, BlockCipherEncrypt, KeyInit};
use aes_ctr::{Ctr128BE, KeystreamEnd, stream_cut};

/// Adds the keystream of a key to a message, as one side does, and adds it once more, as the other
/// does.
///
/// # Errors
///
/// `KeystreamEnd` exactly if the message has more bytes than the keystream.
pub fn there_and_back<C: KeyInit + BlockCipherEncrypt + Drop>(
    key: &C::Key,
    iv: Block,
    message: &mut [u8],
) -> Result<(), KeystreamEnd>
    ensures refusal { IsErr result ↔ (2 ^ 64 - 1 < length message.old) }
    ensures back { OnOk result (message.new ≡ message.old) }
{
    let mut sender = Ctr128BE::new(C::new(key), iv);
    sender.try_apply(message)?;
    let mut receiver = Ctr128BE::new(C::new(key), iv);
    receiver.try_apply(message)?;
    Ok(())
}

/// Adds the keystream to a message that is in two parts. Joined, the parts are then the joined
/// message plus the keystream.
///
/// # Errors
///
/// `KeystreamEnd` exactly if the keystream ends before the second part does. The first part may
/// then be changed.
pub fn apply_to_parts<C: BlockCipherEncrypt>(
    mode: &mut Ctr128BE<C>,
    head: &mut [u8],
    rest: &mut [u8],
) -> Result<(), KeystreamEnd>
    ensures refusal { IsErr result ↔
        (2 ^ 64 - 1 < mode.old.position + (length head.old + length rest.old)) }
    ensures added { OnOk result (head.new ++ rest.new
        ≡ plus_stream (keystream_byte mode.old.round_keys mode.old.iv) mode.old.position
        (head.old ++ rest.old)) }
{
    stream_cut();
    mode.try_apply(head)?;
    mode.try_apply(rest)?;
    Ok(())
}

/// Adds the keystream of a borrowed cipher, from a position on.
///
/// # Errors
///
/// `KeystreamEnd` exactly if the keystream ends before the message does. The message is then
/// unchanged.
pub fn apply_at<C: BlockCipherEncrypt>(
    cipher: &C,
    iv: Block,
    position: u64,
    message: &mut [u8],
) -> Result<(), KeystreamEnd>
    ensures refusal { IsErr result ↔ (2 ^ 64 - 1 < position + length message.old) }
    ensures added { OnOk result (message.new
        ≡ plus_stream (keystream_byte (C.round_keys cipher.now) iv) position message.old) }
    ensures untouched { OnErr result (message.new ≡ message.old) }
{
    let mut mode = Ctr128BE::new_at(cipher, iv, position);
    mode.try_apply(message)
}

/// Adds the keystream to a message. Then counter mode gives the cipher back, and the cipher
/// encrypts a block.
///
/// # Errors
///
/// `KeystreamEnd` exactly if the keystream ends before the message does.
pub fn apply_then_encrypt<C: BlockCipherEncrypt + Drop>(
    cipher: C,
    iv: Block,
    message: &mut [u8],
    block: &mut Block,
) -> Result<C, KeystreamEnd>
    ensures refusal { IsErr result ↔ (2 ^ 64 - 1 < length message.old) }
    ensures added { OnOk result (message.new
        ≡ plus_stream (keystream_byte (C.round_keys cipher) iv) 0 message.old) }
    ensures cipher { IfOk result (λ back. back ≡ cipher) }
    ensures block { OnOk result (block.new ≡ fips.cipher_with (C.round_keys cipher) block.old) }
{
    let mut mode = Ctr128BE::new(cipher, iv);
    mode.try_apply(message)?;
    let back = mode.into_inner();
    back.encrypt_block(block);
    Ok(back)
}
