//! The numbers of statuses and of the version, the lengths of tags, and the sizes of structs, as
//! contracts. With them the prover refuses a mistake in a constant or a definition. The calls have
//! no effect.

ghost use Rattle.std.specs.Prelude.{◌≡◌, ◌↔◌, ℕ, [], ◌∷◌};
ghost use Rattle.aes_cipher.specs.Lengths.{IsOneOf};
ghost use Rattle.aes_c.specs.Form.{no_key};
ghost use Rattle.aes_c.specs.Lengths.{IsCmacLength};

use crate::status::{
    DONE, INVALID_COUNT, KEY_LENGTH, KEYSTREAM_END, NO_KEY, NONCE_LENGTH, REFUSED, TAG_LENGTH,
    TOO_LONG, UNEQUAL_COUNTS, VERSION,
};
use crate::stream::Ctr;
use cbc::Cbc;

/// The numbers that the header gives to statuses and to the version.
pub fn numbers_of_the_header()
    ensures done { DONE ≡ 0 }
    ensures key_length { KEY_LENGTH ≡ 1 }
    ensures no_key { NO_KEY ≡ 2 }
    ensures unequal_counts { UNEQUAL_COUNTS ≡ 3 }
    ensures keystream_end { KEYSTREAM_END ≡ 4 }
    ensures invalid_count { INVALID_COUNT ≡ 5 }
    ensures refused { REFUSED ≡ 6 }
    ensures tag_length { TAG_LENGTH ≡ 7 }
    ensures nonce_length { NONCE_LENGTH ≡ 8 }
    ensures too_long { TOO_LONG ≡ 9 }
    ensures version { VERSION ≡ 400 }
{}

/// The lengths of tags of CMAC.
pub fn tag_length_rule()
    ensures { (n : ℕ) → IsCmacLength n
        ↔ IsOneOf (4 ∷ 5 ∷ 6 ∷ 7 ∷ 8 ∷ 9 ∷ 10 ∷ 11 ∷ 12 ∷ 13 ∷ 14 ∷ 15 ∷ 16 ∷ []) n }
{}

/// A wiped struct says that its key has no bytes.
pub fn no_key_example()
    ensures { no_key.key.length ≡ 0 }
{}

// How many bytes the structs have by the header, with nothing between their fields.
const _: () = prove!(size_of::<Ctr>() == 24);

const _: () = prove!(size_of::<Cbc>() == 16);
