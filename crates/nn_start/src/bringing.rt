// Directories that weren't chosen, brought up to those that were.
ghost use Rattle.std.specs.Prelude.{◌≡◌, ◌≢◌, ◌<◌, ℕ, true, false, not, IfOk, IfErr};
ghost use Rattle.nn_base.specs.DirSets.{has};
ghost use Rattle.nn_host.specs.Moments.{disk_at};
ghost use Rattle.nn_host.specs.Runs.{OnlyAt, Unspoken};
ghost use Rattle.nn_state.specs.Typed.{FitsSettled, dir_in};
ghost use Rattle.nn_state.specs.Bays.{AreSettled};
ghost use Rattle.nn_tree.specs.Imaged.{IsImaged};
ghost use Rattle.nn_remake.specs.Counts.{IsCountedBy as IsCountedAt};
ghost use Rattle.nn_start.specs.Bringing.{KeepsAll, BringsAll, AreReady, IsBroughtUp, BringsKept, BringsUp, IsAsItWas, serves_by};
ghost use Rattle.nn_start.specs.Entry.{SettledFitNow, IsCountedBy};

use crate::opening::Aim;
use nn_host::Host;
use nn_pick::OpenFault;
use nn_remake::{MakeFault, clear, make, top_up};
use nn_state::{Bay, Settled, Stuck};
use nn_tree::Tree;
use std::alloc::Global;

/// Brings each directory that wasn't chosen up to the aim, in order; the chosen ones are left alone.
///
/// One that is formatted and has the cTime of the chosen is topped up: its records go, and the image is published; its saved
/// state stays where the chosen have one. Any other is cleared and made with the image and VERSION of the aim.
pub fn bring_up<H: Host, T: Tree>(
    alloc: Global,
    host: &mut H,
    aim: &Aim<T>,
    bay: Bay,
) -> Result<Bay, OpenFault>
    requires settled { AreSettled (H.state host.old).count bay.at.items }
    requires fits { H.told → SettledFitNow bay.at.items (H.state host.old) }
    requires imaged { IsImaged (T.meaning aim.now.tree) }
    ensures brought { H.told → BringsAll (λ shared s. AreReady shared (has aim.now.chosen) (has aim.now.level) aim.now.saved aim.now.version aim.now.last s) (λ shared i s. IsBroughtUp shared (has aim.now.level i) aim.now.saved aim.now.version aim.now.last i (H.state host.old) s) (λ i. not (has aim.now.chosen i)) aim.now.version aim.now.last (T.meaning aim.now.tree) (H.state host.old) (H.state host.new) result }
    ensures kept { KeepsAll H.told (λ shared s. AreReady shared (has aim.now.chosen) (has aim.now.level) aim.now.saved aim.now.version aim.now.last s) (has aim.now.chosen) aim.now.version aim.now.last (T.meaning aim.now.tree) (H.state host.old) (H.state host.new) }
    ensures left { (i : ℕ) → has aim.now.chosen i ≡ true → IsAsItWas i (H.state host.old) (H.state host.new) }
    ensures settled { IfOk result (λ it. AreSettled (H.state host.old).count it.at.items) }
    ensures fits { H.told → IfOk result (λ it. SettledFitNow it.at.items (H.state host.new)) }
    ensures unrefused { IfErr result (λ why. (refusal : _) → why ≢ OpenFault.Refused refusal) }
    ensures quiet { Unspoken H.told (H.state host.old) (H.state host.new) }
    ensures cause { IsCountedBy (H.state host.old) (H.state host.new) result }
{
    let Ok(mut at) = Vec::with_capacity(alloc, bay.at.len()) else {
        return Err(OpenFault::Memory);
    };
    'dirs: for it in bay.at {
        let dir = it.dir();
        match bring_one(alloc, host, it, aim) {
            Ok(settled) => at.push_reserved(settled),
            Err(MakeFault::Failed) => return Err(OpenFault::Failed(dir)),
            Err(MakeFault::Memory) => return Err(OpenFault::Memory),
        }
    }
    Ok(Bay { at })
}

// Brings one directory up to the aim, unless it was chosen.
fn bring_one<H: Host, T: Tree>(
    alloc: Global,
    host: &mut H,
    at: Settled,
    aim: &Aim<T>,
) -> Result<Settled, MakeFault>
    requires below { (dir_in at).0 < (H.state host.old).count }
    requires fits { H.told → FitsSettled at (disk_at (H.state host.old) (dir_in at).0) }
    requires imaged { IsImaged (T.meaning aim.now.tree) }
    ensures left { has aim.now.chosen (dir_in at).0 ≡ true → H.state host.new ≡ H.state host.old }
    ensures kept { has aim.now.chosen (dir_in at).0 ≡ false → BringsKept H.told (has aim.now.level (dir_in at).0) aim.now.saved aim.now.version aim.now.last (T.meaning aim.now.tree) (dir_in at).0 (H.state host.old) (H.state host.new) }
    ensures brought { H.told → has aim.now.chosen (dir_in at).0 ≡ false → BringsUp (has aim.now.level (dir_in at).0) aim.now.saved aim.now.version aim.now.last (T.meaning aim.now.tree) (dir_in at).0 (H.state host.old) (H.state host.new) result }
    ensures touched { OnlyAt H.told (dir_in at).0 (H.state host.old) (H.state host.new) (λ d. Unit {0}) }
    ensures fits { H.told → IfOk result (λ it. FitsSettled it (disk_at (H.state host.new) (dir_in at).0)) }
    ensures dir { IfOk result (λ it. dir_in it ≡ dir_in at) }
    ensures cause { IsCountedAt (dir_in at).0 (H.state host.old) (H.state host.new) result }
{
    if aim.chosen.has(at.dir()) {
        return Ok(at);
    }
    bring_dir(alloc, host, at, aim)
}

// Brings a directory that wasn't chosen up to the aim: one of the same cTime is topped up, any other is cleared and made.
fn bring_dir<H: Host, T: Tree>(
    alloc: Global,
    host: &mut H,
    at: Settled,
    aim: &Aim<T>,
) -> Result<Settled, MakeFault>
    requires below { (dir_in at).0 < (H.state host.old).count }
    requires fits { H.told → FitsSettled at (disk_at (H.state host.old) (dir_in at).0) }
    requires imaged { IsImaged (T.meaning aim.now.tree) }
    ensures kept { BringsKept H.told (has aim.now.level (dir_in at).0) aim.now.saved aim.now.version aim.now.last (T.meaning aim.now.tree) (dir_in at).0 (H.state host.old) (H.state host.new) }
    ensures brought { H.told → BringsUp (has aim.now.level (dir_in at).0) aim.now.saved aim.now.version aim.now.last (T.meaning aim.now.tree) (dir_in at).0 (H.state host.old) (H.state host.new) result }
    ensures touched { OnlyAt H.told (dir_in at).0 (H.state host.old) (H.state host.new) (λ d. Unit {0}) }
    ensures fits { H.told → IfOk result (λ it. FitsSettled it (disk_at (H.state host.new) (dir_in at).0)) }
    ensures dir { IfOk result (λ it. dir_in it ≡ dir_in at) }
    ensures cause { IsCountedAt (dir_in at).0 (H.state host.old) (H.state host.new) result }
{
    if serves(&at) && aim.level.has(at.dir()) {
        return top_up(
            alloc,
            host,
            at,
            &aim.tree,
            aim.last,
            &aim.version,
            aim.saved,
        );
    }
    remake(alloc, host, at, aim)
}

// Whether something is formatted here.
fn serves(at: &Settled) -> bool
    ensures { result ≡ serves_by at.now }
{
    match at {
        Settled::Ready(_) | Settled::ReadyWithPrevious(_) => true,
        Settled::Fresh(_) => false,
    }
}

// Clears a directory, and makes it with the image and VERSION of the aim.
fn remake<H: Host, T: Tree>(
    alloc: Global,
    host: &mut H,
    at: Settled,
    aim: &Aim<T>,
) -> Result<Settled, MakeFault>
    requires below { (dir_in at).0 < (H.state host.old).count }
    requires fits { H.told → FitsSettled at (disk_at (H.state host.old) (dir_in at).0) }
    requires lower { has aim.now.level (dir_in at).0 ≡ true → serves_by at ≡ false }
    requires imaged { IsImaged (T.meaning aim.now.tree) }
    ensures kept { BringsKept H.told (has aim.now.level (dir_in at).0) aim.now.saved aim.now.version aim.now.last (T.meaning aim.now.tree) (dir_in at).0 (H.state host.old) (H.state host.new) }
    ensures brought { H.told → BringsUp (has aim.now.level (dir_in at).0) aim.now.saved aim.now.version aim.now.last (T.meaning aim.now.tree) (dir_in at).0 (H.state host.old) (H.state host.new) result }
    ensures touched { OnlyAt H.told (dir_in at).0 (H.state host.old) (H.state host.new) (λ d. Unit {0}) }
    ensures fits { H.told → IfOk result (λ it. FitsSettled it (disk_at (H.state host.new) (dir_in at).0)) }
    ensures dir { IfOk result (λ it. dir_in it ≡ dir_in at) }
    ensures cause { IsCountedAt (dir_in at).0 (H.state host.old) (H.state host.new) result }
{
    let fresh = match clear(host, at) {
        Ok(fresh) => fresh,
        Err(Stuck(_)) => return Err(MakeFault::Failed),
    };
    match make(alloc, host, fresh, &aim.tree, aim.last, &aim.version) {
        Ok(ready) => Ok(Settled::Ready(ready)),
        Err(fault) => Err(fault),
    }
}
