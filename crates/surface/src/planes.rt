//! The steps of the cipher on planes.

ghost use Rattle.std.specs.Prelude.{◌≤◌, length};

use aes_planes::soft::mix_columns::{
    inv_mix_columns_0, inv_mix_columns_1, inv_mix_columns_2, inv_mix_columns_3, mix_columns_0,
    mix_columns_1, mix_columns_2, mix_columns_3,
};
use aes_planes::soft::sbox::{Layers, inv_sub_bytes, sub_bytes, sub_bytes_nots};
use aes_planes::soft::utils::{
    add_round_constant_bit, add_round_key, inv_shift_rows_1, inv_shift_rows_2, inv_shift_rows_3,
    shift_rows_1, shift_rows_2, shift_rows_3, xor_columns,
};
use aes_planes::soft::word::Word;

/// Substitutes the bytes, and back.
pub fn substitute<W: Word>(state: &mut [W; 8]) -> Layers {
    let mut layers = Layers::new();
    sub_bytes::<W>(state, &mut layers);
    sub_bytes_nots::<W>(state);
    inv_sub_bytes::<W>(state, &mut layers);
    layers
}

/// Shifts the rows.
pub fn shift<W: Word>(state: &mut [W; 8]) {
    shift_rows_1::<W>(state);
    shift_rows_2::<W>(state);
    shift_rows_3::<W>(state);
    inv_shift_rows_1::<W>(state);
    inv_shift_rows_2::<W>(state);
    inv_shift_rows_3::<W>(state);
}

/// Mixes the columns.
pub fn mix<W: Word>(state: &mut [W; 8]) {
    mix_columns_0::<W>(state);
    mix_columns_1::<W>(state);
    mix_columns_2::<W>(state);
    mix_columns_3::<W>(state);
    inv_mix_columns_0::<W>(state);
    inv_mix_columns_1::<W>(state);
    inv_mix_columns_2::<W>(state);
    inv_mix_columns_3::<W>(state);
}

/// Adds a round key and a bit of a round constant.
pub fn add<W: Word>(state: &mut [W; 8], round_key: &[W; 8]) {
    add_round_key::<W>(state, round_key);
    add_round_constant_bit::<W>(state, 7);
}

/// Sums the columns of the second round key.
pub fn sum_columns<W: Word>(round_keys: &mut [W])
    requires { 16 ≤ length round_keys.old }
{
    let offset: usize = 8;
    let idx_xor: usize = 8;
    let idx_ror: u32 = W::ror_distance(1, 3);
    xor_columns::<W>(round_keys, offset, idx_xor, idx_ror);
}
