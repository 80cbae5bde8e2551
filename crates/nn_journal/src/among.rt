// A step in several directories.
ghost use Rattle.std.specs.Prelude.{◌≡◌, ◌<◌, ◌≤◌, ℕ, true};
ghost use Rattle.nn_base.specs.DirSets.{has};
ghost use Rattle.nn_journal.specs.Among.{SteppedAmong, SteppedAll};

use nn_base::{DirNo, DirSet, FirstTxid};
use nn_host::{Failed, Host};
use nn_segment_file::{Step, step_at};

/// Does a step with these bytes in each live directory: in the holders, in order, and then in the others. One that fails is
/// no longer live.
pub fn step_all<H: Host>(
    host: &mut H,
    live: &mut DirSet,
    holders: &DirSet,
    step: &Step,
    first: &FirstTxid,
    bytes: &[u8],
)
    requires below { (j : ℕ) → has live.old j ≡ true → j < (H.state host.old).count }
    requires order { (last : _) → step.now ≡ Step.End last → first.now ≤ last }
    ensures stepped { SteppedAll H.told step.now first.now bytes.now holders.now live.old live.new (H.state host.old) (H.state host.new) }
    ensures count { (H.state host.new).count ≡ (H.state host.old).count }
{
    // As a rule no directory has a saved state, and all are gone over at once.
    if holders.is_empty() {
        let all = *live;
        step_among(host, live, &all, step, first, bytes);
        return;
    }
    holders_first(host, live, holders, step, first, bytes);
}

// Apart, so that a record doesn't pay for it where there are none.
#[cold]
#[inline(never)]
fn holders_first<H: Host>(
    host: &mut H,
    live: &mut DirSet,
    holders: &DirSet,
    step: &Step,
    first: &FirstTxid,
    bytes: &[u8],
)
    requires below { (j : ℕ) → has live.old j ≡ true → j < (H.state host.old).count }
    requires order { (last : _) → step.now ≡ Step.End last → first.now ≤ last }
    ensures stepped { SteppedAll H.told step.now first.now bytes.now holders.now live.old live.new (H.state host.old) (H.state host.new) }
    ensures count { (H.state host.new).count ≡ (H.state host.old).count }
{
    let holding = live.and(*holders);
    let others = live.and_not(*holders);
    step_among(host, live, &holding, step, first, bytes);
    step_among(host, live, &others, step, first, bytes);
}

/// Does a step with these bytes in each of these directories, in order. One that fails is no longer live.
#[tactic(auto, using(crate::proofs::AmongLemmas::walk_ends))]
pub fn step_among<H: Host>(
    host: &mut H,
    live: &mut DirSet,
    among: &DirSet,
    step: &Step,
    first: &FirstTxid,
    bytes: &[u8],
)
    requires below { (j : ℕ) → has among.now j ≡ true → j < (H.state host.old).count }
    requires order { (last : _) → step.now ≡ Step.End last → first.now ≤ last }
    ensures stepped { SteppedAmong H.told step.now first.now bytes.now among.now live.old live.new (H.state host.old) (H.state host.new) }
    ensures count { (H.state host.new).count ≡ (H.state host.old).count }
{
    for i in 0..8u8 {
        let dir = DirNo(i);
        if among.has(dir) {
            match step_at(host, dir, step, first, bytes) {
                Ok(()) => {}
                Err(Failed) => *live = live.without(dir),
            }
        }
    }
}
