// The owner or the group of a node.
ghost use Rattle.std.specs.Prelude.{◌≡◌, ◌≤◌, length};
ghost use Rattle.std.specs.Option.{SomeIff};
ghost use Rattle.nn_base.specs.Labels.{IsLabel};
ghost use Rattle.nn_base.specs.Limits.{most_label};

use crate::limits::MOST_LABEL;
use std::marker::Model;

/// The name of an owner or of a group, 1 to 32 bytes. It keeps them in place, as a node has two and copies them often.
#[derive(Clone, Copy, PartialEq, Eq)]
pub struct Label {
    buf: [u8; MOST_LABEL],
    len: usize,
}

impl Model for Label {
    ghost use Rattle.std.specs.Prelude.{List, ℕ, take, length};
    ghost use Rattle.nn_base.specs.Labels.{HoldsLabel};
    ghost use Rattle.nn_base.specs.Padded.{padded, length-text, padded-text};
    ghost use Rattle.nn_base.specs.Limits.{most_label};

    ghost Value = { List ℕ };

    ghost view = { λ a. take a.len a.buf };

    ghost invariant = { λ a. HoldsLabel a.buf a.len };

    ghost inverse = { λ v. record { buf = padded most_label v; len = length v } };

    ghost inverse_ok = { λ a h i. record { buf = padded-text most_label a.buf a.len h.padded i; len = length-text most_label a.buf a.len h.padded i } };
}

impl Label {
    /// The label of these bytes. `None` stands for a text that is empty or longer than 32 bytes.
    pub fn of(bytes: &[u8]) -> Option<Label>
        ensures { SomeIff result (IsLabel bytes.now) bytes.now }
    {
        if bytes.is_empty() || MOST_LABEL < bytes.len() {
            return None;
        }
        let mut buf = [0; MOST_LABEL];
        for (i, b) in bytes.iter().enumerate() {
            buf[i] = *b;
        }
        Some(Label {
            buf,
            len: bytes.len(),
        })
    }

    /// Its bytes, one to 32.
    pub fn bytes(&self) -> &[u8]
        ensures value { result.now ≡ self.now }
        ensures some { 1 ≤ length self.now }
        ensures few { length self.now ≤ most_label }
    {
        &self.buf[..self.len]
    }
}
