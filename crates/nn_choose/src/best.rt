// The chain that ends last, of the directories of the greatest cTime.
ghost use Rattle.std.specs.Prelude.{◌≡◌, ◌+◌, ◌<◌, ◌==◌, ◌||◌};
ghost use Rattle.nn_base.specs.DirSets.{has};
ghost use Rattle.nn_choose.specs.Picking.{IsBest, IsSoundBest, IsNextLoaded, IsOfOne, IsOfFirst};

use nn_base::{DirNo, DirSet, Txid};
use nn_chain::ImageWhy;
use nn_marks::Version;
use nn_tree::Tree;

/// A chain: the namespace at its end, and the directories that have one that ends there.
#[derive(Drop)]
pub struct Furthest<T: Tree> {
    pub tree: T,
    pub last: Txid,
    /// VERSION of the lowest of these directories.
    pub version: Version,
    pub dirs: DirSet,
}

impl<T: Tree> Furthest<T> {
    fn end(&self) -> u64
        ensures { result ≡ self.now.last }
    {
        self.last.0
    }

    /// The same, and this directory has one too.
    fn noting(self, i: DirNo) -> Furthest<T>
        requires { i.0 < 8 }
        ensures same { (result.tree ≡ self.tree) × (result.last ≡ self.last) × (result.version ≡ self.version) }
        ensures noted { (j : _) → has result.dirs j ≡ ((j == i.0) || has self.dirs j) }
    {
        Furthest {
            tree: self.tree,
            last: self.last,
            version: self.version,
            dirs: self.dirs.with(i),
        }
    }
}

/// What directories of the greatest cTime hold.
#[derive(Drop)]
pub enum Best<T: Tree> {
    Chain(Furthest<T>),
    /// None of them has an intact image; why not the first.
    NoImage(ImageWhy),
}

/// The best of some first directories and of the next one, `i`.
pub fn better<T: Tree>(best: Best<T>, i: DirNo, next: Best<T>) -> Best<T>
    requires below { i.0 < 8 }
    requires one { IsOfOne i.0 next }
    requires first { IsOfFirst i.0 best }
    ensures best { (dirs : _) (lead : _) → IsBest T.meaning dirs lead i.0 best → IsNextLoaded T.meaning dirs i.0 next → IsBest T.meaning dirs lead (i.0 + 1) result }
    ensures first { IsOfFirst (i.0 + 1) result }
    ensures sound { IsSoundBest T.meaning best → IsSoundBest T.meaning next → IsSoundBest T.meaning result }
{
    match next {
        Best::NoImage(_) => best,
        Best::Chain(its) => match best {
            Best::NoImage(_) => Best::Chain(its),
            Best::Chain(before) => Best::Chain(later(before, i, its)),
        },
    }
}

/// The chain that ends later. Of two that end at one id the lower directory's stays, and the other directory is noted.
fn later<T: Tree>(before: Furthest<T>, i: DirNo, its: Furthest<T>) -> Furthest<T>
    requires below { i.0 < 8 }
    requires one { IsOfOne i.0 (Best.Chain its) }
    requires first { IsOfFirst i.0 (Best.Chain before) }
    ensures best { (dirs : _) (lead : _) → IsBest T.meaning dirs lead i.0 (Best.Chain before) → IsNextLoaded T.meaning dirs i.0 (Best.Chain its) → IsBest T.meaning dirs lead (i.0 + 1) (Best.Chain result) }
    ensures first { IsOfFirst (i.0 + 1) (Best.Chain result) }
    ensures sound { IsSoundBest T.meaning (Best.Chain before) → IsSoundBest T.meaning (Best.Chain its) → IsSoundBest T.meaning (Best.Chain result) }
{
    let (end, other) = (before.end(), its.end());
    if end < other {
        return its;
    }
    if other < end {
        return before;
    }
    before.noting(i)
}
