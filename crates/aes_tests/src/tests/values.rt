//! Values that come from one another, dropped in every order.

use super::copies::{decrypts, encrypts};
use super::forms::{Both, Dec, Enc, Forms, Known, Trial, try_all};
use aes_cipher::cipher::{BlockCipherDecrypt, BlockCipherEncrypt, KeyInit};
use std::test::Fail;

// The values of one key, by their types.
#[derive(Clone, Copy)]
enum Kind {
    Enc,
    Both,
    Dec,
}

// Values of one key, until they are dropped.
#[derive(Drop)]
struct Living<E: Drop, B: Drop, D: Drop> {
    enc: Option<E>,
    both: Option<B>,
    dec: Option<D>,
}

impl<E, B, D> Living<E, B, D>
where
    E: BlockCipherEncrypt + Drop,
    B: BlockCipherEncrypt + BlockCipherDecrypt + Drop,
    D: BlockCipherDecrypt + Drop,
{
    fn drop_one(&mut self, kind: Kind) {
        match kind {
            Kind::Enc => self.enc = None,
            Kind::Both => self.both = None,
            Kind::Dec => self.dec = None,
        }
    }

    // Whether every value that is left answers as the standard says.
    fn are_right(&self, encrypted: u128) -> bool {
        let enc = self.enc.as_ref().is_none_or(|enc| encrypts(enc, encrypted));
        let both = self.both.as_ref().is_none_or(|both| encrypts(both, encrypted)
            && decrypts(both, encrypted));
        let dec = self.dec.as_ref().is_none_or(|dec| decrypts(dec, encrypted));
        enc && both && dec
    }

    // Whether the values are right while they are dropped in this order.
    fn outlive_one_another(mut self, order: [Kind; 3], encrypted: u128) -> bool {
        let mut right = true;
        for kind in order {
            right &= self.are_right(encrypted);
            self.drop_one(kind);
        }
        right
    }
}

const ORDERS: [[Kind; 3]; 6] = [
    [Kind::Enc, Kind::Both, Kind::Dec],
    [Kind::Enc, Kind::Dec, Kind::Both],
    [Kind::Both, Kind::Enc, Kind::Dec],
    [Kind::Both, Kind::Dec, Kind::Enc],
    [Kind::Dec, Kind::Enc, Kind::Both],
    [Kind::Dec, Kind::Both, Kind::Enc],
];

// A value that encrypts, one that its clone became, and one that was made from it. They are dropped
// in each order.
struct Orders;

impl Trial for Orders {
    fn passes<F: Forms>(&self, known: &Known) -> Result<bool, Fail> {
        let mut right = true;
        for order in ORDERS {
            let Ok(enc) = Enc::<F>::new_from_slice(known.key) else {
                return Ok(false);
            };
            let living = Living::<Enc<F>, Both<F>, Dec<F>> {
                both: Some(Both::<F>::from(enc.clone()?)),
                dec: Some(Dec::<F>::from(&enc)),
                enc: Some(enc),
            };
            right &= living.outlive_one_another(order, known.encrypted);
        }
        Ok(right)
    }
}

#[test]
fn values_outlive_one_another_in_every_order(rt: HostRuntime) -> Result<(), Fail> {
    try_all(&rt, &Orders)
}
