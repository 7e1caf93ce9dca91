//! The ciphers, with one contract for both directions, every layout, every word and every size of
//! key.

mod layouts;
mod planes;
mod rounds;

pub use layouts::{Compact, Full, Layout};
pub use planes::PlaneCipher;
pub(crate) use planes::{process, process_outlined};
