// A journal, begun over directories that are at rest.
ghost use Rattle.std.specs.Prelude.{◌≡◌, ◌≢◌, ◌<◌, ◌^◌, ℕ, true, false, IfOk, IfErr, OnOk};
ghost use Rattle.nn_base.specs.DirSets.{has};
ghost use Rattle.nn_host.specs.Runs.{Unspoken};
ghost use Rattle.nn_state.specs.declared.typed.Settled.{Settled};
ghost use Rattle.nn_state.specs.Bays.{IsAt, AreSettled};
ghost use Rattle.nn_start.specs.Entry.{SettledFitNow};
ghost use Rattle.nn_begin.specs.Begun.{IsNewJournal, HoldsBy, AreAtRest, IsBegun, OnlyLogged, BeginsKept, IsCountedIn, IsPlaced};

use nn_base::{DirNo, DirSet, FirstTxid, Txid};
use nn_host::Host;
use nn_journal::JournalSet;
use nn_marks::Version;
use nn_pick::OpenFault;
use nn_state::Bay;
use std::alloc::Global;

/// Begins a journal over all directories, with a segment in progress behind this id in each.
///
/// `Failed` where a call on some directory failed: with the lowest of them.
pub fn begin<H: Host>(
    alloc: Global,
    host: &mut H,
    bay: &Bay,
    last: Txid,
    version: &Version,
) -> Result<JournalSet, OpenFault>
    requires settled { AreSettled (H.state host.old).count bay.now.at.items }
    requires fits { H.told → SettledFitNow bay.now.at.items (H.state host.old) }
    requires room { last < 2 ^ 62 }
    ensures ready { IfOk result (λ journal. IsNewJournal (H.state host.old).count last journal) }
    ensures holders { IfOk result (λ journal. HoldsBy bay.now.at.items (has journal.holders)) }
    ensures begun { H.told → (shared : _) (ns : _) → AreAtRest shared version.now last ns (H.state host.old) → IfOk result (λ journal. IsBegun shared version.now last ns bay.now.at.items journal (H.state host.new)) }
    ensures beside { H.told → (shared : _) (ns : _) → AreAtRest shared version.now last ns (H.state host.old) → OnOk result (OnlyLogged last (H.state host.old) (H.state host.new)) }
    ensures kept { BeginsKept H.told version.now last (H.state host.old) (H.state host.new) }
    ensures unrefused { IfErr result (λ why. (refusal : _) → why ≢ OpenFault.Refused refusal) }
    ensures quiet { Unspoken H.told (H.state host.old) (H.state host.new) }
    ensures cause { IsCountedIn (H.state host.old) (H.state host.new) result }
{
    let count = host.count();
    let live = DirSet::first(count);
    let holders = holders(bay);
    let next = FirstTxid(Txid(last.0 + 1));
    let Ok(mut journal) = JournalSet::reserve(alloc, live, holders, next, version.layout) else {
        return Err(OpenFault::Memory);
    };
    let _ = journal.start_segment(host);
    match dropped(&journal, count) {
        Some(dir) => Err(OpenFault::Failed(dir)),
        None => Ok(journal),
    }
}

// The directories that have a saved state.
fn holders(bay: &Bay) -> DirSet
    requires placed { (k : ℕ) (it : Settled) → IsAt bay.now.at.items k it → IsPlaced k it }
    ensures { HoldsBy bay.now.at.items (has result) }
{
    let mut set = DirSet::none();
    for at in &bay.at {
        if at.has_previous() {
            set = set.with(at.dir());
        }
    }
    set
}

// The lowest of these directories that isn't live.
fn dropped(journal: &JournalSet, count: u8) -> Option<DirNo>
    ensures some { (dir : _) → result ≡ Some dir → (dir.0 < count) × (has journal.now.live dir.0 ≡ false) }
    ensures none { result ≡ None → (i : ℕ) → i < count → has journal.now.live i ≡ true }
{
    for i in 0..count {
        if !journal.live(DirNo(i)) {
            return Some(DirNo(i));
        }
    }
    None
}
