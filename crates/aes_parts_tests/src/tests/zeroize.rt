//! Words that are wiped, alone and in a `Wiped`.

use aes_cipher::zeroize::{
    MustWipe, Wiped, Zeroize, ZeroizeOnDrop, zeroize_elements, zeroize_words,
};

#[test]
fn wipes_words_of_any_width(rt: HostRuntime) {
    let mut narrow: [u16; 3] = [0xffff, 0x0100, 1];
    zeroize_words(&mut narrow);
    assert!(rt; narrow == [0; 3]);
    let mut wide: [u64; 2] = [u64::MAX, 1 << 63];
    zeroize_words(&mut wide);
    assert!(rt; wide == [0; 2]);
    let mut part: [u64; 3] = [1, 2, 3];
    zeroize_words(&mut part[1..]);
    assert!(rt; part == [1, 0, 0]);
    zeroize_words(&mut part[..0]);
    assert!(rt; part == [1, 0, 0]);
}

#[test]
fn wipes_blocks_where_they_stand(rt: HostRuntime) {
    let mut blocks = [[7; 16], [8; 16], [9; 16]];
    zeroize_elements(&mut blocks[1..]);
    assert!(rt; blocks == [[7; 16], [0; 16], [0; 16]]);
    blocks.zeroize();
    assert!(rt; blocks == [[0; 16]; 3]);
}

#[test]
fn wipes_arrays_of_numbers_where_they_stand(rt: HostRuntime) {
    let mut narrow: [u32; 3] = [u32::MAX, 1 << 31, 1];
    narrow.zeroize();
    assert!(rt; narrow == [0; 3]);
    let mut wide: [u64; 2] = [u64::MAX, 1 << 63];
    wide.zeroize();
    assert!(rt; wide == [0; 2]);
}

#[test]
fn lets_go_of_what_was_wiped(rt: HostRuntime) {
    let mut kept = MustWipe::<[u128; 2]>::zeroed();
    *kept.value_mut() = [u128::MAX, 1 << 127];
    assert!(rt; *kept.value() == [u128::MAX, 1 << 127]);
    kept.wipe();
    assert!(rt; *kept.value() == [0; 2]);
}

// Drops a value, which wipes its words.
fn let_go_of<T: ZeroizeOnDrop + Drop>(_value: T) {}

#[test]
fn wipes_a_value_and_leaves_its_copy(rt: HostRuntime) {
    let mut wiped = Wiped::<[u16; 3]>::new([7, 8, 9]);
    let copy = wiped.copy();
    wiped.wipe();
    assert!(rt; *wiped.value() == [0; 3]);
    wiped.value_mut().copy_from_slice(&[4, 5, 6]);
    assert!(rt; *wiped.value() == [4, 5, 6]);
    assert!(rt; *copy.value() == [7, 8, 9]);
    let_go_of(copy);
}
