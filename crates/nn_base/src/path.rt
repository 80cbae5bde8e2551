// A place in the namespace.
mod components;
mod fault;
mod parse;

ghost use Rattle.std.specs.Prelude.{◌≡◌, ◌≢◌, ◌+◌, ◌-◌, ◌<◌, ◌≤◌, ◌^◌, ◌∷◌, ◌++◌, true, false, [], length, take, drop, slice_index, All, IfOk, OnOk, OnErr, IsOk, vec_len, vec_capacity};
ghost use Rattle.std.specs.Option.{SomeIff};
ghost use Rattle.nn_base.specs.Paths.{IsPath, is_name, has_slash, joined, text_of};

use crate::limits::{MOST_LEVELS, MOST_PATH};
use crate::{Name, NoMemory};
pub use components::Components;
pub use fault::PathFault;
use std::alloc::Global;
use std::marker::Model;

/// A path: its names from the root, kept as one text. It has at most 1,000 levels and 8,000 bytes of text, the limits of HDFS (`MAX_PATH_DEPTH`, `MAX_PATH_LENGTH`).
#[derive(Drop)]
pub struct Path {
    // A `/` before each name, so nothing for the root.
    text: Vec<u8>,
    depth: usize,
}

impl Model for Path {
    ghost use Rattle.std.specs.Prelude.{List, ℕ};
    ghost use Rattle.nn_base.specs.PathText.{parts_of};
    ghost use Rattle.nn_base.specs.PathHeld.{HoldsPath};

    ghost Value = { List (List ℕ) };

    ghost view = { λ a. parts_of a.text.items };

    ghost invariant = { λ a. HoldsPath a.text.items a.depth };
}

impl Path {
    /// The root, which takes no memory.
    pub fn root(alloc: Global) -> Path
        ensures { result ≡ [] }
    {
        Path {
            text: Vec::new(alloc),
            depth: 0,
        }
    }

    /// The path of these names. `None` stands for more than 1,000 levels or 8,000 bytes of text.
    pub fn of(alloc: Global, names: &[Name]) -> Result<Option<Path>, NoMemory>
        ensures { IfOk result (λ found. SomeIff found (IsPath names.now) names.now) }
    {
        if MOST_LEVELS < names.len() {
            return Ok(None);
        }
        let size = text_len(names);
        if MOST_PATH < size {
            return Ok(None);
        }
        let mut text = Vec::with_capacity(alloc, size)?;
        append(names, &mut text)?;
        Ok(Some(Path {
            text,
            depth: names.len(),
        }))
    }

    /// The same path in memory of its own.
    pub fn copy(&self, alloc: Global) -> Result<Path, NoMemory>
        ensures same { IfOk result (λ copy. copy ≡ self.now) }
        ensures path { IfOk result (λ copy. IsPath copy) }
    {
        let text = self.text.to_vec(alloc)?;
        Ok(Path {
            text,
            depth: self.depth,
        })
    }

    /// How many names it has; the root has none.
    pub fn depth(&self) -> usize
        ensures value { result ≡ length self.now }
        ensures path { IsPath self.now }
    {
        self.depth
    }

    /// Its names, from the root on.
    pub fn components(&self) -> Components<'_>
        ensures { result ≡ self.now }
    {
        Components::of(&self.text)
    }

    /// Its text: a `/` before each name, and `/` alone for the root.
    pub fn bytes(&self) -> &[u8]
        ensures value { result.now ≡ text_of self.now }
        ensures path { IsPath self.now }
    {
        if self.depth == 0 {
            return b"/";
        }
        &self.text
    }

    /// Appends the text: a `/` before each name, and `/` alone for the root. Where memory runs out nothing is appended.
    pub fn text(&self, out: &mut Vec<u8>) -> Result<(), NoMemory>
        ensures ok { OnOk result (out.new.items ≡ out.old.items ++ text_of self.now) }
        ensures err { OnErr result (out.new.items ≡ out.old.items) }
    {
        out.extend_from_slice(self.bytes())?;
        Ok(())
    }

    /// The path of the directory above.
    pub fn parent(&self, alloc: Global) -> Result<Path, NoMemory>
        requires { 0 < length self.now }
        ensures { IfOk result (λ p. p ≡ take (length self.now - 1) self.now) }
    {
        let start = last_start(&self.text);
        let text = self.text[..start - 1].to_vec(alloc)?;
        Ok(Path {
            text,
            depth: self.depth - 1,
        })
    }

    /// The last of its names.
    pub fn last_name(&self, alloc: Global) -> Result<Name, NoMemory>
        requires { 0 < length self.now }
        ensures { IfOk result (λ name. self.now ≡ take (length self.now - 1) self.now ++ name ∷ []) }
    {
        let start = last_start(&self.text);
        let name = Name::held(alloc, &self.text[start..])?;
        Ok(name)
    }
}

// Where the part behind the last `/` of a text begins.
fn last_start(text: &[u8]) -> usize
    ensures within { result ≤ length text.now }
    ensures whole { has_slash (drop result text.now) ≡ false }
    ensures slash { 0 < result → slice_index text.now (result - 1) ≡ 47 }
{
    match text.iter().rposition(|byte| *byte == b'/') {
        Some(at) => at + 1,
        None => 0,
    }
}

// How many bytes some names have as a text, a `/` before each.
fn text_len(names: &[Name]) -> usize
    requires { length names.now < 2 ^ 32 }
    ensures value { result ≡ length (joined names.now) }
    ensures named { All (λ name. is_name name ≡ true) names.now }
{
    let mut len = 0;
    for name in names {
        len += 1 + name.bytes().len();
    }
    len
}

// The caller has made room for all of it.
fn append(names: &[Name], out: &mut Vec<u8>) -> Result<(), NoMemory>
    requires room { vec_len out.old + length (joined names.now) ≤ vec_capacity out.old }
    ensures ok { IsOk result }
    ensures text { out.new.items ≡ out.old.items ++ joined names.now }
{
    for name in names {
        out.push(b'/')?;
        out.extend_from_slice(name.bytes())?;
    }
    Ok(())
}
