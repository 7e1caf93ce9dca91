//! Messages of GCM in pieces: each call, by what the call for a whole message makes, and pieces out
//! of turn.

use aes_cipher::cipher::KeyInit;
use aes_cipher::zeroize::Wiped;
use aes_hybrid::Aes128Enc;
use gcm::{Counter, Gcm, InvalidMessage, InvalidPiece, Message, NotAccepted};
use standards::bytes::counted;

#[test]
fn agrees_with_a_whole_message(rt: HostRuntime) {
    let bytes: [u8; 100] = counted();
    let keys = Gcm::new(<Aes128Enc>::new(&[3; 16]));
    let mode = keys.borrowed();
    let mut room = Wiped::zeroed();
    let message: &mut Message = room.value_mut();
    let mut whole = bytes;
    let tag = mode.seal(&bytes[..12], &bytes[..20], &mut whole);
    let mut text = bytes;
    assert!(rt; mode.begin(message, &bytes[..12]) == Ok(()));
    assert!(rt; mode.additional_piece(message, &bytes[..7]) == Ok(()));
    assert!(rt; mode.additional_piece(message, &bytes[7..20]) == Ok(()));
    assert!(rt; mode.encrypt_piece(message, &mut text) == Ok(()));
    assert!(rt; mode.finish(message) == Ok(tag));
    assert!(rt; text == whole);
    assert!(rt; mode.begin(message, &bytes[..12]) == Ok(()));
    assert!(rt; mode.additional_piece(message, &bytes[..20]) == Ok(()));
    assert!(rt; mode.verify_piece(message, &text) == Ok(()));
    assert!(rt; mode.accept_short(message, 8, &tag[..7]) == Err(NotAccepted::Refused));
    assert!(rt; mode.accept_short(message, 8, &tag[..8]) == Ok(()));
    assert!(rt; mode.decrypt_piece(message, &mut text) == Ok(()));
    assert!(rt; text == bytes);
    assert!(rt; mode.begin(message, &bytes[..12]) == Ok(()));
    assert!(rt; mode.additional_piece(message, &bytes[..20]) == Ok(()));
    assert!(rt; mode.decrypt_unverified_piece(message, &mut whole) == Ok(()));
    assert!(rt; mode.accept(message, &[0; 16]) == Err(NotAccepted::Refused));
    assert!(rt; mode.accept(message, &tag) == Ok(()));
    assert!(rt; whole == bytes);
}

#[test]
fn begins_under_the_next_nonce(rt: HostRuntime) {
    let keys = Gcm::new(<Aes128Enc>::new(&[3; 16]));
    let mode = keys.borrowed();
    let mut room = Wiped::zeroed();
    let message: &mut Message = room.value_mut();
    let mut counter = Counter {
        next: [0, 0, 0, 7, 0xff, 0xff, 0xff, 0xff, 0xff, 0xff, 0xff, 0xff],
    };
    let used = counter.next;
    assert!(rt; !counter.is_over());
    assert!(rt; mode.begin_next(message, &mut counter) == used);
    assert!(rt; counter.next == [0, 0, 0, 8, 0, 0, 0, 0, 0, 0, 0, 0]);
    assert!(rt; mode.finish(message) == Ok(mode.seal(&used, &[], &mut [])));
    assert!(rt; mode.begin(message, &[]) == Err(InvalidMessage::EmptyNonce));
    assert!(rt; mode.verify_piece(message, &[1]) == Err(InvalidPiece::OutOfTurn));
}
