//! Words as keys of a map, in which letter case has no meaning.

ghost use Rattle.std.specs.Prelude.{◌≡◌, fold};
ghost use Rattle.st_blocks.specs.Letters.{fed_letters};

use plant_types::same_word;
use std::hash::{Hash, Hasher};
use std::marker::Model;

/// A word that is lent. Two are equal where they are the same word, whatever the letter case.
#[derive(Drop)]
pub struct Word<'a> {
    text: &'a str,
}

impl<'a> Model for Word<'a> {
    ghost use Rattle.std.specs.Prelude.{List, ℕ};

    ghost Value = { List ℕ };

    ghost view = { λ w. w.text.now };
}

impl<'a> Word<'a> {
    /// Makes a key of a word.
    pub fn new(text: &'a str) -> Word<'a>
        ensures { result ≡ text.now }
    {
        Word { text }
    }
}

impl<'a> PartialEq for Word<'a> {
    ghost use Rattle.plant_types.specs.Words.{same_word};
    ghost use Rattle.std.specs.Cmp.Rules.{comparing};
    ghost use Rattle.std.proofs.Common.{rules};

    ghost eq = { λ a b. same_word a b };

    ghost laws = { Prim.search (comparing, rules) };

    fn eq(&self, other: &Word<'a>) -> bool {
        same_word(self.text.as_bytes(), other.text.as_bytes())
    }
}

impl<'a> Eq for Word<'a> {
    ghost use Rattle.std.specs.Cmp.Rules.{comparing};
    ghost use Rattle.std.proofs.Common.{rules};

    ghost laws = { Prim.search (comparing, rules) };
}

/// Feeds each byte of a word, in small letters, to a hasher.
fn feed<H: Hasher>(bytes: &[u8], state: &mut H)
    ensures { state.new ≡ fold H.write state.old (fed_letters bytes.now) }
{
    for byte in bytes {
        state.write_u8(byte.to_ascii_lowercase());
    }
}

impl<'a> Hash for Word<'a> {
    ghost use Rattle.st_blocks.specs.Letters.{fed_letters, fed_alike};

    ghost hash_input = { λ w. fed_letters w };

    ghost respects_eq = { λ x y. fed_alike x y };

    fn hash<H: Hasher>(&self, state: &mut H) {
        feed(self.text.as_bytes(), state);
    }
}
