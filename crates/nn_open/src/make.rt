// Making a new namespace in each directory.
ghost use Rattle.std.specs.Prelude.{◌≡◌, ◌≢◌, ◌<◌, ℕ, OnOk, IfErr};
ghost use Rattle.nn_host.specs.Moments.{disk_at};
ghost use Rattle.nn_host.specs.Calls.{IsCounted};
ghost use Rattle.nn_host.specs.Runs.{OnlyAt, Unspoken};
ghost use Rattle.nn_state.specs.Typed.{FitsFresh};
ghost use Rattle.nn_tree.specs.Namespace.{empty_namespace};
ghost use Rattle.nn_remake.specs.Counts.{IsCountedBy as IsCountedAt};
ghost use Rattle.nn_remake.specs.Made.{IsBare};
ghost use Rattle.nn_open.specs.Formatted.{IsFormatted, FreshOrNew};
ghost use Rattle.nn_open.specs.Answers.{EachFreshOrNew, IsCountedBy};

use nn_base::{DirNo, Sub, Txid};
use nn_host::{Failed, Host};
use nn_marks::Version;
use nn_pick::OpenFault;
use nn_remake::{MakeFault, clear_unformatted, make};
use nn_state::Fresh;
use nn_tree::Tree;
use std::alloc::Global;

/// Makes the empty namespace, which the tree is, in each directory, in order, under this VERSION.
pub fn make_all<H: Host, T: Tree>(
    alloc: Global,
    host: &mut H,
    tree: &T,
    version: &Version,
) -> Result<(), OpenFault>
    requires fresh { H.told → (j : ℕ) → j < (H.state host.old).count → FitsFresh (disk_at (H.state host.old) j) }
    requires empty { T.meaning tree.now ≡ empty_namespace }
    ensures ok { H.told → OnOk result ((j : ℕ) → j < (H.state host.old).count → IsFormatted version.now (disk_at (H.state host.new) j)) }
    ensures unrefused { IfErr result (λ why. (refusal : _) → why ≢ OpenFault.Refused refusal) }
    ensures any_moment { EachFreshOrNew H.told version.now (H.state host.old) (H.state host.new) }
    ensures quiet { Unspoken H.told (H.state host.old) (H.state host.new) }
    ensures cause { IsCountedBy (H.state host.old) (H.state host.new) result }
{
    for i in 0..host.count() {
        match make_dir(alloc, host, DirNo(i), tree, version) {
            Ok(()) => {}
            Err(MakeFault::Failed) => return Err(OpenFault::Failed(DirNo(i))),
            Err(MakeFault::Memory) => return Err(OpenFault::Memory),
        }
    }
    Ok(())
}

fn make_dir<H: Host, T: Tree>(
    alloc: Global,
    host: &mut H,
    i: DirNo,
    tree: &T,
    version: &Version,
) -> Result<(), MakeFault>
    requires below { i.0 < (H.state host.old).count }
    requires fresh { H.told → FitsFresh (disk_at (H.state host.old) i.0) }
    requires empty { T.meaning tree.now ≡ empty_namespace }
    ensures ok { H.told → OnOk result (IsFormatted version.now (disk_at (H.state host.new) i.0)) }
    ensures any_moment { OnlyAt H.told i.0 (H.state host.old) (H.state host.new) (FreshOrNew version.now) }
    ensures cause { IsCountedAt i.0 (H.state host.old) (H.state host.new) result }
{
    clear_unformatted(host, i)?;
    make(alloc, host, Fresh { dir: i }, tree, Txid(0), version)?;
    Ok(())
}
