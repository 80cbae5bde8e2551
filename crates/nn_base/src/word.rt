// Words of VERSION.
ghost use Rattle.std.specs.Prelude.{◌≡◌, IsTrue, SomeIff, nat_eq};
ghost use Rattle.std.specs.List.{list_all};
ghost use Rattle.std.specs.Cmp.Lexicographic.{pointwise, nat_list_eq_equiv};
ghost use Rattle.std.specs.Cmp.{partial_equiv_from_equiv};
ghost use Rattle.nn_base.specs.Words.{is_word, is_word_byte};

use crate::limits::MOST_WORD;
use std::marker::Model;

/// A word of a VERSION file, as a cluster's or a block pool's id: 1 to 255 bytes of 0x21 to 0x7E, held in place.
#[derive(Clone, Copy, Debug)]
pub struct Word {
    buffer: [u8; MOST_WORD],
    len: u8,
}

impl Model for Word {
    ghost use Rattle.std.specs.Prelude.{List, ℕ, take, length, IsTrue};
    ghost use Rattle.nn_base.specs.Words.{is_word};
    ghost use Rattle.nn_base.specs.Padded.{IsPadded, padded, length-text, padded-text};
    ghost use Rattle.nn_base.specs.Limits.{most_word};

    ghost Value = { List ℕ };

    ghost view = { λ word. take word.len word.buffer };

    ghost invariant = { λ word. IsPadded most_word word.buffer word.len × IsTrue (is_word (take word.len word.buffer)) };

    ghost inverse = { λ bytes. record { buffer = padded most_word bytes; len = length bytes } };

    ghost inverse_ok = { λ word h i. record { buffer = padded-text most_word word.buffer word.len h.0 i; len = length-text most_word word.buffer word.len h.0 i } };
}

impl Word {
    /// None for a text that is empty, longer than 255 bytes, or has a byte outside 0x21 to 0x7E.
    pub fn of(bytes: &[u8]) -> Option<Word>
        ensures { SomeIff result (IsTrue (is_word bytes.now)) bytes.now }
    {
        if !is_word(bytes) {
            return None;
        }
        let mut buffer = [0; MOST_WORD];
        buffer[..bytes.len()].copy_from_slice(bytes);
        Some(Word {
            buffer,
            len: bytes.len() as u8,
        })
    }

    /// The bytes of the word.
    pub fn bytes(&self) -> &[u8]
        ensures word { IsTrue (is_word self.now) }
        ensures value { result.now ≡ self.now }
    {
        &self.buffer[..self.len as usize]
    }
}

impl PartialEq for Word {
    ghost eq = { pointwise nat_eq };

    ghost laws = { partial_equiv_from_equiv nat_list_eq_equiv };

    fn eq(&self, other: &Word) -> bool {
        self.bytes() == other.bytes()
    }
}

impl Eq for Word {
    ghost laws = { nat_list_eq_equiv };
}

fn is_word(bytes: &[u8]) -> bool
    ensures { result ≡ is_word bytes.now }
{
    1 <= bytes.len() && bytes.len() <= MOST_WORD && are_word_bytes(bytes)
}

fn are_word_bytes(bytes: &[u8]) -> bool
    ensures { result ≡ list_all is_word_byte bytes.now }
{
    bytes.iter().all(|byte| 0x21 <= *byte && *byte <= 0x7E)
}
