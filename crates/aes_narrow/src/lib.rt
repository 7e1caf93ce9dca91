//! AES on words of bit planes alone, for processors with neither vectors nor a byte shuffle (FIPS
//! 197). The round keys of a key are stored as planes, and serve both directions.
#![tactic(auto)]

pub mod blocks;
pub mod borrowed_words;
pub mod examples;
pub mod kept_key;
pub mod kept_word;
pub mod narrow_word;
pub mod word_room;
