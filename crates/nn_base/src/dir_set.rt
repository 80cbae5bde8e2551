// A set of name directories.
ghost use Rattle.std.specs.Prelude.{◌≡◌, ℕ, ◌<◌, ◌≤◌, ◌==◌, ◌&&◌, ◌||◌, not, nat_lt, true, false};
ghost use mathlib.Core.Bool.{beq};
ghost use Rattle.std.specs.List.{list_any};
ghost use Rattle.nn_base.specs.DirSets.{has};

use crate::DirNo;
use std::marker::Model;

/// A set of name directories, each by its number. No set has a number from 8 on.
#[derive(Clone, Copy, Debug, PartialEq, Eq)]
pub struct DirSet {
    dirs: [bool; 8],
}

impl Model for DirSet {
    ghost use Rattle.std.specs.Prelude.{◌≡◌, length};
    ghost use Rattle.std.proofs.Common.{ap};
    ghost use Rattle.nn_base.specs.DirSets.{Members, values, from_values, values-from_values};

    ghost Value = { Members };

    ghost view = { λ set. from_values set.dirs };

    ghost invariant = { λ set. length set.dirs ≡ 8 };

    ghost inverse = { λ members. record { dirs = values members } };

    ghost inverse_ok = { λ set h i. record { dirs = values-from_values set.dirs h i } };
}

impl DirSet {
    /// The set without a directory.
    pub fn none() -> DirSet
        ensures { (j : ℕ) → has result j ≡ false }
    {
        DirSet { dirs: [false; 8] }
    }

    /// The directories that a command lists, of which there are this many.
    pub fn first(count: u8) -> DirSet
        requires { count ≤ 8 }
        ensures { (j : ℕ) → has result j ≡ nat_lt j count }
    {
        let mut set = DirSet::none();
        for i in 0..count {
            set = set.with(DirNo(i));
        }
        set
    }

    /// Whether it has this directory.
    pub fn has(self, dir: DirNo) -> bool
        ensures { result ≡ has self dir.0 }
    {
        let i = usize::from(dir.0);
        i < 8 && self.dirs[i]
    }

    /// Whether it has no directory.
    pub fn is_empty(self) -> bool
        ensures yes { result ≡ true → (j : ℕ) → has self j ≡ false }
        ensures no { result ≡ false → (j : ℕ) × (has self j ≡ true) }
    {
        !has_true(&self.dirs)
    }

    /// The set with this directory too.
    pub fn with(mut self, dir: DirNo) -> DirSet
        requires { dir.0 < 8 }
        ensures { (j : ℕ) → has result j ≡ ((j == dir.0) || has self j) }
    {
        self.dirs[usize::from(dir.0)] = true;
        self
    }

    /// The set without this directory.
    pub fn without(mut self, dir: DirNo) -> DirSet
        requires { dir.0 < 8 }
        ensures { (j : ℕ) → has result j ≡ (not (j == dir.0) && has self j) }
    {
        self.dirs[usize::from(dir.0)] = false;
        self
    }

    /// The directories that are in both.
    pub fn and(self, other: DirSet) -> DirSet
        ensures { (j : ℕ) → has result j ≡ (has self j && has other j) }
    {
        self.part(other, true)
    }

    /// The directories that aren't in the other.
    pub fn and_not(self, other: DirSet) -> DirSet
        ensures { (j : ℕ) → has result j ≡ (has self j && not (has other j)) }
    {
        self.part(other, false)
    }

    fn part(self, other: DirSet, wanted: bool) -> DirSet
        ensures { (j : ℕ) → has result j ≡ (has self j && beq (has other j) wanted) }
    {
        let mut set = DirSet::none();
        for i in 0..8u8 {
            let dir = DirNo(i);
            if self.has(dir) && other.has(dir) == wanted {
                set = set.with(dir);
            }
        }
        set
    }
}

fn has_true(values: &[bool]) -> bool
    ensures { result ≡ list_any (λ value. value) values.now }
{
    values.iter().any(|value| *value)
}
