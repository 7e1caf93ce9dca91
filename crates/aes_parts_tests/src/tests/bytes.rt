//! What no clause says: that the calls on bytes answer. Bytes of many blocks become what their
//! blocks become.

use super::cipher::calls::rest_of_the_example;
use aes_cipher::bytes::{PartialBlock, blocks_and_bytes, decrypt_bytes, encrypt_bytes};
use aes_cipher::cipher::{Block, BlockCipherEncrypt};
use standards::bytes::counted;

#[test]
fn works_on_whole_blocks(rt: HostRuntime) {
    blocks_and_bytes();
    let cipher = rest_of_the_example();
    let plain: [u8; 1056] = counted();
    for blocks in [0, 1, 2, 63, 64, 65, 66] {
        let mut bytes = plain;
        let (part, rest) = bytes.split_at_mut(16 * blocks);
        assert!(rt; encrypt_bytes(&cipher, part) == Ok(()));
        for (i, block) in part.as_chunks::<16>().0.iter().enumerate() {
            let mut wanted: Block = [0; 16];
            wanted.copy_from_slice(&plain[16 * i..16 * i + 16]);
            cipher.encrypt_block(&mut wanted);
            assert!(rt; *block == wanted);
        }
        assert!(rt; rest[..] == plain[16 * blocks..]);
        assert!(rt; decrypt_bytes(&cipher, part) == Ok(()));
        assert!(rt; bytes == plain);
    }
}

#[test]
fn refuses_bytes_that_end_inside_a_block(rt: HostRuntime) {
    let cipher = rest_of_the_example();
    let plain: [u8; 1056] = counted();
    for length in [1, 15, 17, 1055] {
        let mut bytes = plain;
        assert!(rt; encrypt_bytes(&cipher, &mut bytes[..length]) == Err(PartialBlock));
        assert!(rt; decrypt_bytes(&cipher, &mut bytes[..length]) == Err(PartialBlock));
        assert!(rt; bytes == plain);
    }
}
