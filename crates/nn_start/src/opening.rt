// Directories that are opened for a start.
ghost use Rattle.std.specs.Prelude.{◌≡◌, ◌≢◌, ◌<◌, ◌↔◌, ◌^◌, ℕ, true, false, OnOk, IfOk, IfErr};
ghost use Rattle.nn_base.specs.DirSets.{has};
ghost use Rattle.nn_host.specs.Runs.{Unspoken};
ghost use Rattle.nn_state.specs.Bays.{AreFound, FitAll, AreSettled, SettledFit, AllRecovered, EachKeepsSeat};
ghost use Rattle.nn_tree.specs.Imaged.{IsImaged};
ghost use Rattle.nn_pick.specs.declared.intent.Intent.TheVariants.{Start};
ghost use Rattle.nn_pick.specs.Refusing.{IsChosenWithPrevious};
ghost use Rattle.nn_pick.specs.Opening.{AreSound};
ghost use Rattle.nn_kept.specs.Kept.{Shared};
ghost use Rattle.nn_kept.specs.First.{IsFirst};
ghost use Rattle.nn_choose.specs.Looking.{dirs_read};
ghost use Rattle.nn_choose.specs.Picking.{Chooses, IsAhead, IsRefusedTruly};
ghost use Rattle.nn_start.specs.Publishing.{AreOpened};
ghost use Rattle.nn_start.specs.Entry.{ReopensAtAnyMoment, OpensAtAnyMoment, StartKept, AllKeepSeats, AllReopened, SettledFitNow, ReadsAsBefore, SomeSaved, NoneSaved, IsCountedBy};

use crate::settling::settle_all;
use nn_base::{DirSet, Txid};
use nn_choose::pick;
use nn_host::Host;
use nn_marks::Version;
use nn_pick::OpenFault;
use nn_state::{Bay, BayFault, Found};
use nn_tree::Tree;
use std::alloc::Global;

/// What all directories of a start are brought up to.
#[derive(Drop)]
pub struct Aim<T: Tree> {
    /// The namespace that they open to.
    pub tree: T,
    /// The last id, below 2^62.
    pub last: Txid,
    /// VERSION of the lowest chosen directory.
    pub version: Version,
    /// The directories of the greatest rank, which have it already.
    pub chosen: DirSet,
    /// The directories of the greatest cTime: those, and others that lag behind.
    pub level: DirSet,
    /// Whether a chosen directory has a saved state.
    pub saved: bool,
}

/// Directories in none of which anything is under way, and what they open to.
#[derive(Drop)]
pub struct Recovered<T: Tree> {
    pub aim: Aim<T>,
    pub bay: Bay,
}

/// Settles all directories, picks what they open to for a start, and recovers each. Or answers the first refusal of their
/// table; nothing that reads is changed then, nor where there was no memory.
///
/// Like the first half of Hadoop's `FSImage.recoverTransitionRead`.
pub fn open<H: Host, T: Tree>(alloc: Global, host: &mut H) -> Result<Recovered<T>, OpenFault>
    ensures ok { H.told → IfOk result (λ it. Chooses (dirs_read (H.state host.old)) Start (T.meaning it.aim.tree) it.aim.last it.aim.version (has it.aim.chosen)) }
    ensures refused { H.told → IfErr result (IsRefusedTruly (dirs_read (H.state host.old)) Start) }
    ensures unchanged { H.told → IfErr result (ReadsAsBefore (H.state host.old) (H.state host.new)) }
    ensures imaged { IfOk result (λ it. IsImaged (T.meaning it.aim.tree)) }
    ensures room { IfOk result (λ it. it.aim.last < 2 ^ 62) }
    ensures placed { IfOk result (λ it. AreSettled (H.state host.old).count it.bay.at.items × ((i : ℕ) → has it.aim.chosen i ≡ true → i < (H.state host.old).count)) }
    ensures fits { H.told → IfOk result (λ it. SettledFitNow it.bay.at.items (H.state host.new)) }
    ensures level { H.told → IfOk result (λ it. (i : ℕ) → (has it.aim.level i ≡ true) ↔ IsAhead (dirs_read (H.state host.old)) i) }
    ensures saved { H.told → IfOk result (λ it. (it.aim.saved ≡ true) ↔ ((i : ℕ) × IsChosenWithPrevious (dirs_read (H.state host.old)) i)) }
    ensures ready { H.told → (sound : AreSound (dirs_read (H.state host.old)) Start) (shared : Shared) → IsFirst shared (dirs_read (H.state host.old)) Start sound → IfOk result (λ it. AreOpened (dirs_read (H.state host.old)) sound.opened.book shared (has it.aim.chosen) (has it.aim.level) it.aim.saved it.aim.version it.aim.last (T.meaning it.aim.tree) (H.state host.new)) }
    ensures reopened { H.told → OnOk result (AllReopened (H.state host.old) (H.state host.new)) }
    ensures any_moment { OpensAtAnyMoment H.told (H.state host.old) (H.state host.new) }
    ensures kept { StartKept H.told (H.state host.old) (H.state host.new) }
    ensures quiet { Unspoken H.told (H.state host.old) (H.state host.new) }
    ensures cause { IsCountedBy (H.state host.old) (H.state host.new) result }
{
    settle_all(host)?;
    reopen(alloc, host)
}

// Picks what directories open to for a start, and recovers each.
fn reopen<H: Host, T: Tree>(alloc: Global, host: &mut H) -> Result<Recovered<T>, OpenFault>
    ensures ok { H.told → IfOk result (λ it. Chooses (dirs_read (H.state host.old)) Start (T.meaning it.aim.tree) it.aim.last it.aim.version (has it.aim.chosen)) }
    ensures refused { H.told → IfErr result (IsRefusedTruly (dirs_read (H.state host.old)) Start) }
    ensures unchanged { H.told → IfErr result (ReadsAsBefore (H.state host.old) (H.state host.new)) }
    ensures imaged { IfOk result (λ it. IsImaged (T.meaning it.aim.tree)) }
    ensures room { IfOk result (λ it. it.aim.last < 2 ^ 62) }
    ensures placed { IfOk result (λ it. AreSettled (H.state host.old).count it.bay.at.items × ((i : ℕ) → has it.aim.chosen i ≡ true → i < (H.state host.old).count)) }
    ensures fits { H.told → IfOk result (λ it. SettledFitNow it.bay.at.items (H.state host.new)) }
    ensures level { H.told → IfOk result (λ it. (i : ℕ) → (has it.aim.level i ≡ true) ↔ IsAhead (dirs_read (H.state host.old)) i) }
    ensures saved { H.told → IfOk result (λ it. (it.aim.saved ≡ true) ↔ ((i : ℕ) × IsChosenWithPrevious (dirs_read (H.state host.old)) i)) }
    ensures recovered { H.told → OnOk result (AllRecovered (H.state host.old) (H.state host.new)) }
    ensures seats { H.told → OnOk result (AllKeepSeats (H.state host.old) (H.state host.new)) }
    ensures any_moment { ReopensAtAnyMoment H.told (H.state host.old) (H.state host.new) }
    ensures quiet { Unspoken H.told (H.state host.old) (H.state host.new) }
    ensures cause { IsCountedBy (H.state host.old) (H.state host.new) result }
{
    let picked = pick(alloc, host)?;
    let bay = recover(alloc, host, picked.found)?;
    let saved = some_saved(&bay, picked.chosen);
    Ok(Recovered {
        aim: Aim {
            tree: picked.tree,
            last: picked.last,
            version: picked.version,
            chosen: picked.chosen,
            level: picked.ahead,
            saved,
        },
        bay,
    })
}

// Recovers each directory, in order.
fn recover<H: Host>(alloc: Global, host: &mut H, found: Vec<Found>) -> Result<Bay, OpenFault>
    requires found { AreFound (H.state host.old).count found.items }
    requires fits { H.told → FitAll found.items (H.state host.old) }
    ensures ok { H.told → OnOk result (AllRecovered (H.state host.old) (H.state host.new)) }
    ensures settled { IfOk result (λ bay. AreSettled (H.state host.old).count bay.at.items) }
    ensures fits { H.told → IfOk result (λ bay. SettledFit bay.at.items (H.state host.old) (H.state host.new)) }
    ensures unrefused { IfErr result (λ why. (refusal : _) → why ≢ OpenFault.Refused refusal) }
    ensures memory { H.told → IfErr result (ReadsAsBefore (H.state host.old) (H.state host.new)) }
    ensures any_moment { EachKeepsSeat H.told (H.state host.old) (H.state host.new) }
    ensures quiet { Unspoken H.told (H.state host.old) (H.state host.new) }
    ensures cause { IsCountedBy (H.state host.old) (H.state host.new) result }
{
    match Bay::recover_all(alloc, host, found) {
        Ok(bay) => Ok(bay),
        Err(BayFault::Failed(i)) => Err(OpenFault::Failed(i)),
        Err(BayFault::Memory) => Err(OpenFault::Memory),
    }
}

// Whether one of these directories has a saved state.
fn some_saved(bay: &Bay, chosen: DirSet) -> bool
    ensures some { result ≡ true → SomeSaved bay.now.at.items (has chosen) }
    ensures none { result ≡ false → NoneSaved bay.now.at.items (has chosen) }
{
    for at in &bay.at {
        if chosen.has(at.dir()) && at.has_previous() {
            return true;
        }
    }
    false
}
