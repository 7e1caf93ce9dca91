//! Nonces that are counted, and the next one of a key, which the caller keeps.

ghost use Rattle.std.specs.Prelude.{◌≡◌, ◌≢◌, ◌↔◌, ◌+◌, ◌-◌, ◌*◌, ◌^◌, IsTrue, IsNone, IfSome};
ghost use Rattle.gcm.specs.Gcm.{nonce_number};

use aes_cipher::not_clone::NotClone;

/// The next nonce of a key, as C keeps it: `struct fotsgure_gcm_counter`. A copy gives out the same
/// nonces again.
#[repr(C)]
#[derive(Drop)]
pub struct Counter {
    /// The nonce as one number, highest byte first. The last number is never used: it means that no
    /// nonce is left.
    pub next: [u8; 12],
}

// Returns the nonce after this one, as its first four bytes and its last eight. After the last
// number it returns `None`.
fn nonce_after(nonce: &[u8; 12]) -> Option<(u32, u64)>
    ensures ended { IsNone result ↔ (nonce_number nonce.now ≡ 2 ^ 96 - 1) }
    ensures next { IfSome result (λ next. next.0 * 2 ^ 64 + next.1 ≡ nonce_number nonce.now + 1) }
{
    let mut first = [0; 4];
    let mut last = [0; 8];
    first.copy_from_slice(&nonce[..4]);
    last.copy_from_slice(&nonce[4..]);
    let high = u32::from_be_bytes(first);
    let low = u64::from_be_bytes(last);
    if low < u64::MAX {
        Some((high, low + 1))
    } else if high < u32::MAX {
        Some((high + 1, 0))
    } else {
        None
    }
}

// Writes a nonce, given by its first four bytes and its last eight.
fn put_nonce(nonce: &mut [u8; 12], high: u32, low: u64)
    ensures { nonce_number nonce.new ≡ high * 2 ^ 64 + low }
{
    let (first, last) = nonce.split_at_mut(4);
    first.copy_from_slice(&high.to_be_bytes());
    last.copy_from_slice(&low.to_be_bytes());
}

impl NotClone for Counter {}

impl Counter {
    /// Returns whether no nonce is left. If so, use a new key.
    pub fn is_over(&self) -> bool
        ensures { IsTrue result ↔ (nonce_number self.now.next ≡ 2 ^ 96 - 1) }
    {
        nonce_after(&self.next).is_none()
    }

    /// Returns the next nonce, and moves on by one (SP 800-38D, 8.2.1).
    pub fn take(&mut self) -> [u8; 12]
        requires { nonce_number self.old.next ≢ 2 ^ 96 - 1 }
        ensures nonce { result ≡ self.old.next }
        ensures counted { nonce_number self.new.next ≡ nonce_number self.old.next + 1 }
    {
        let nonce = self.next;
        if let Some((high, low)) = nonce_after(&nonce) {
            put_nonce(&mut self.next, high, low);
        }
        nonce
    }
}
