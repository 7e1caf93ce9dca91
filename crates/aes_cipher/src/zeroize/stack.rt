//! Wipes what calls leave on the stack.

ghost use Rattle.std.specs.Prelude.{◌≤◌};

use std::sync::atomic::{AtomicU64, Ordering};

/// Overwrites with zeros this many bytes of the stack, which earlier calls from the same function
/// used. Values of the last rounds may be there, and a key can be computed from them. So a call
/// that works on such values is never inlined, and this call comes after it.
///
/// If BYTES is too small, such values stay on the stack below what is wiped. No clause says that
/// the stack is wiped, or that BYTES is enough. The second proof (`dist/prove`) shows in the
/// assembly that the calls from C wipe enough. `evidence/wipe` searches memory for what is left.
///
/// A compiler may leave out writes that nothing reads. Therefore a byte is read, at a place that
/// comes out of an atomic, and goes into the atomic.
#[inline(never)]
pub fn wipe_stack<const BYTES: usize>()
    requires { BYTES ≤ 5120 }
{
    let room: [u8; BYTES] = [0; BYTES];
    let seen = AtomicU64::new(0);
    let place = seen.load(Ordering::SeqCst) as usize;
    if place < BYTES {
        seen.swap(room[place] as u64, Ordering::SeqCst);
    }
}
