// Where the nodes stand that a command names, and what is in the way.
ghost use Rattle.std.specs.Prelude.{◌≡◌, ◌≢◌, ◌<◌, true, length, IfOk, IfErr, OnOk, None, Some};
ghost use Rattle.std.specs.FinMap as map;
ghost use Rattle.nn_tree.specs.Walks.{obstacle, AFile};
ghost use Rattle.nn_ops.specs.Above.{parent_of};
ghost use Rattle.nn_ops.specs.Commands.{free_tests, node_tests, file_tests, open_tests, is_open, is_root};
ghost use Rattle.nn_base.specs.First.{first_of};

use crate::OpRefusal;
use nn_base::Path;
use nn_tree::{Kind, Spot, Tree, Walk};

/// The directory above a path at which nothing stands.
pub(crate) fn free_place<T: Tree>(tree: &T, path: &Path) -> Result<Spot, OpRefusal>
    ensures there { IfOk result (λ spot. T.has tree.now spot ≡ true) }
    ensures above { IfOk result (λ spot. T.place tree.now spot ≡ parent_of path.now) }
    ensures below_root { OnOk result (0 < length path.now) }
    ensures ok { OnOk result (first_of (free_tests (T.meaning tree.now).nodes path.now) ≡ None) }
    ensures err { IfErr result (λ r. first_of (free_tests (T.meaning tree.now).nodes path.now) ≡ Some r) }
{
    match tree.find(path) {
        Walk::Found(_) => Err(OpRefusal::Exists),
        Walk::ThroughFile => Err(OpRefusal::NotDir),
        Walk::Missing => directory_above(tree, path),
    }
}

/// The directory above a path at which nothing stands, with no file in the way.
fn directory_above<T: Tree>(tree: &T, path: &Path) -> Result<Spot, OpRefusal>
    requires free { map.get (T.meaning tree.now).nodes path.now ≡ None }
    requires no_file { obstacle (T.meaning tree.now).nodes path.now ≢ Some AFile }
    ensures there { IfOk result (λ spot. T.has tree.now spot ≡ true) }
    ensures above { IfOk result (λ spot. T.place tree.now spot ≡ parent_of path.now) }
    ensures below_root { OnOk result (0 < length path.now) }
    ensures ok { OnOk result (first_of (free_tests (T.meaning tree.now).nodes path.now) ≡ None) }
    ensures err { IfErr result (λ r. first_of (free_tests (T.meaning tree.now).nodes path.now) ≡ Some r) }
{
    let _counters = tree.counters();
    match tree.find_above(path) {
        Walk::Found(spot) => Ok(spot),
        Walk::Missing => Err(OpRefusal::NotFound),
        Walk::ThroughFile => unreachable!(),
    }
}

/// The node at a path.
pub(crate) fn node_at<T: Tree>(tree: &T, path: &Path) -> Result<Spot, OpRefusal>
    ensures there { IfOk result (λ spot. T.has tree.now spot ≡ true) }
    ensures at { IfOk result (λ spot. T.place tree.now spot ≡ path.now) }
    ensures ok { OnOk result (first_of (node_tests (T.meaning tree.now).nodes path.now) ≡ None) }
    ensures err { IfErr result (λ r. first_of (node_tests (T.meaning tree.now).nodes path.now) ≡ Some r) }
{
    match tree.find(path) {
        Walk::Found(spot) => Ok(spot),
        Walk::ThroughFile => Err(OpRefusal::NotDir),
        Walk::Missing => Err(OpRefusal::NotFound),
    }
}

/// The file at a path.
pub(crate) fn file_at<T: Tree>(tree: &T, path: &Path) -> Result<Spot, OpRefusal>
    ensures there { IfOk result (λ spot. T.has tree.now spot ≡ true) }
    ensures at { IfOk result (λ spot. T.place tree.now spot ≡ path.now) }
    ensures ok { OnOk result (first_of (file_tests (T.meaning tree.now).nodes path.now) ≡ None) }
    ensures err { IfErr result (λ r. first_of (file_tests (T.meaning tree.now).nodes path.now) ≡ Some r) }
{
    let at = node_at(tree, path)?;
    if tree.node(at).kind.is_dir() {
        return Err(OpRefusal::IsDir);
    }
    Ok(at)
}

/// The open file at a path.
pub(crate) fn open_file_at<T: Tree>(tree: &T, path: &Path) -> Result<Spot, OpRefusal>
    ensures there { IfOk result (λ spot. T.has tree.now spot ≡ true) }
    ensures at { IfOk result (λ spot. T.place tree.now spot ≡ path.now) }
    ensures ok { OnOk result (first_of (open_tests (T.meaning tree.now).nodes path.now) ≡ None) }
    ensures err { IfErr result (λ r. first_of (open_tests (T.meaning tree.now).nodes path.now) ≡ Some r) }
{
    let at = file_at(tree, path)?;
    if !is_open(&tree.node(at).kind) {
        return Err(OpRefusal::Closed);
    }
    Ok(at)
}

fn is_open(kind: &Kind) -> bool
    ensures { result ≡ is_open kind.now }
{
    match kind {
        Kind::File { is_open, .. } => *is_open,
        Kind::Dir { .. } => false,
    }
}

/// Whether a path is that of the root.
pub(crate) fn is_root(path: &Path) -> bool
    ensures { result ≡ is_root path.now }
{
    path.depth() == 0
}
