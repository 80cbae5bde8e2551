// The names of a path, one after another.
ghost use Rattle.std.specs.Prelude.{◌≡◌, ◌<◌, ◌∷◌, true, length};
ghost use Rattle.std.specs.List.{position_from, position_or_len};
ghost use Rattle.nn_base.specs.Paths.{is_name};
ghost use Rattle.nn_base.specs.PathText.{parts_of};
ghost use Rattle.nn_base.specs.PathHeld.{HoldsNames, is_slash};

use std::marker::Model;

/// The names of a path that are left to be read, from the root on, as `std::path::Components`.
#[derive(Drop)]
pub struct Components<'a> {
    // A `/` before each name.
    rest: &'a [u8],
}

impl<'a> Model for Components<'a> {
    ghost use Rattle.std.specs.Prelude.{List, ℕ};
    ghost use Rattle.nn_base.specs.PathText.{parts_of};
    ghost use Rattle.nn_base.specs.PathHeld.{HoldsNames};

    ghost Value = { List (List ℕ) };

    ghost view = { λ a. parts_of a.rest.now };

    ghost invariant = { λ a. HoldsNames a.rest.now };
}

impl<'a> Components<'a> {
    /// The names that a text holds.
    pub(super) fn of(text: &'a [u8]) -> Components<'a>
        requires { HoldsNames text.now }
        ensures { result ≡ parts_of text.now }
    {
        Components { rest: text }
    }

    /// Takes the first name that is left.
    pub fn take_name(&mut self) -> &'a [u8]
        requires { 0 < length self.old }
        ensures rest { self.old ≡ result.now ∷ self.new }
        ensures name { is_name result.now ≡ true }
    {
        let text = &self.rest[1..];
        let (name, rest) = text.split_at(part_len(text));
        self.rest = rest;
        name
    }
}

// How many bytes stand before the first `/`.
fn part_len(text: &[u8]) -> usize
    ensures { result ≡ position_or_len is_slash text.now }
{
    first_slash(text).unwrap_or(text.len())
}

fn first_slash(text: &[u8]) -> Option<usize>
    ensures { result ≡ position_from is_slash 0 text.now }
{
    text.iter().position(|byte| *byte == b'/')
}
