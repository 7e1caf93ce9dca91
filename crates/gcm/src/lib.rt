//! GCM (SP 800-38D) over any block cipher that encrypts. It encrypts messages, and shows whether a
//! message was changed.
#![tactic(auto)]

mod bitwise;
mod byte_order;
mod counter;
mod errors;
pub mod examples;
mod field;
mod gctr;
mod hash;
mod hash_room;
mod holes;
mod laws;
mod lengths;
mod message_state;
mod mode;
mod moved_rows;
mod multiples;
mod numbers;
mod pieces;
mod row_pairs;
mod single_blocks;
mod tags;
mod words;

pub use bitwise::{BitwiseFactor, product_bitwise};
pub use byte_order::{ByteOrder, HighestFirst};
pub use counter::Counter;
pub use errors::{InvalidMessage, InvalidPiece, NotAccepted, OutOfTurn, Refused, TooLong};
pub use field::next_v;
pub use hash::{hash_string, hash_string_and_end};
pub use hash_room::{BorrowedRoom, HashRoom, ProductRoom, SubkeyRoom, SubkeyWordsRoom};
pub use holes::{FactorWithHoles, product_with_holes};
pub use laws::{decrypted_parts, kept_parts, text_may_follow, text_twice};
pub use lengths::{LONGEST_HASHED, LONGEST_TEXT};
pub use message_state::{Message, Phase};
pub use mode::{BorrowedGcm, Gcm, prepare};
pub use multiples::{Multiples, MultiplesRoom, Table, TableRoom};
pub use numbers::sum;
pub use single_blocks::{Factor, hash_singly};
pub use tags::is_short_tag;
pub use words::number_of_words;
