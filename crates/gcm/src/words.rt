//! A block as four words of 32 bits, and back. Room keeps H in this form if a processor multiplies
//! words.

ghost use Rattle.std.specs.Prelude.{◌≡◌};
ghost use Rattle.gcm.specs.Multiples.{subkey_of_words};

// One more than the largest word.
const WORD: u128 = 1 << 32;

// Returns the four words of a number, the lowest first.
#[inline(always)]
pub(crate) fn words_of(number: u128) -> [u32; 4]
    ensures { subkey_of_words result ≡ number }
{
    [
        (number % WORD) as u32,
        ((number >> 32) % WORD) as u32,
        ((number >> 64) % WORD) as u32,
        (number >> 96) as u32,
    ]
}

/// Returns the number that four words are, the lowest first.
#[inline(always)]
pub fn number_of_words(words: &[u32; 4]) -> u128
    ensures { result ≡ subkey_of_words words.now }
{
    words[0] as u128
        + ((words[1] as u128) << 32)
        + ((words[2] as u128) << 64)
        + ((words[3] as u128) << 96)
}
