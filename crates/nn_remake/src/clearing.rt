// A directory whose state is given up.
ghost use Rattle.std.specs.Prelude.{◌≡◌, ◌⊎◌, ◌<◌, false, OnOk, MatchResult};
ghost use Rattle.nn_base.specs.declared.sub.Sub.TheVariants.{Previous};
ghost use Rattle.nn_host.specs.Moments.{disk_at};
ghost use Rattle.nn_host.specs.Calls.{IsCounted};
ghost use Rattle.nn_host.specs.Runs.{OnlyAt};
ghost use Rattle.nn_state.specs.Typed.{FitsFresh, FitsSettled, dir_in};
ghost use Rattle.nn_remake.specs.Made.{IsBare};
ghost use Rattle.nn_remake.specs.Clearing.{IsIdle, IsAtRest, IsGivingUp, WasGivenUp, IsClearing};

use nn_base::{DirNo, FileName, Sub};
use nn_host::{Failed, Host};
use nn_state::{Fresh, Settled, Stuck};

/// Gives up all that the directory holds: its saved state, and then `current` and `previous.checkpoint`.
///
/// `previous` goes first, since the table calls one that stands alone inconsistent. VERSION goes before the rest of `current`:
/// with it what serves is whole, and without it nothing is formatted here.
pub fn clear<H: Host>(host: &mut H, at: Settled) -> Result<Fresh, Stuck>
    requires below { (dir_in at).0 < (H.state host.old).count }
    requires fits { H.told → FitsSettled at (disk_at (H.state host.old) (dir_in at).0) }
    ensures ok { H.told → OnOk result (IsBare (disk_at (H.state host.new) (dir_in at).0)) }
    ensures any_moment { OnlyAt H.told (dir_in at).0 (H.state host.old) (H.state host.new) (IsClearing (disk_at (H.state host.old) (dir_in at).0)) }
    ensures dir { MatchResult result (λ fresh. fresh.dir ≡ dir_in at) (λ stuck. stuck.0 ≡ dir_in at) }
    ensures cause { IsCounted (dir_in at).0 (H.state host.old) (H.state host.new) result }
{
    let dir = at.dir();
    match clear_dir(host, dir, at.has_previous()) {
        Ok(()) => Ok(Fresh { dir }),
        Err(Failed) => Err(Stuck(dir)),
    }
}

/// The same, of a directory by its number, whether it has a saved state or not: of one that has no temporary folder, though the table may
/// call it inconsistent, since a saved state stands alone.
pub fn clear_dir<H: Host>(host: &mut H, i: DirNo, has_previous: bool) -> Result<(), Failed>
    requires below { i.0 < (H.state host.old).count }
    requires idle { H.told → IsIdle (disk_at (H.state host.old) i.0) }
    requires previous { H.told → (disk_at (H.state host.old) i.0).has Previous ≡ has_previous }
    ensures ok { H.told → OnOk result (IsBare (disk_at (H.state host.new) i.0)) }
    ensures any_moment { OnlyAt H.told i.0 (H.state host.old) (H.state host.new) (λ d. IsAtRest (disk_at (H.state host.old) i.0) → IsClearing (disk_at (H.state host.old) i.0) d) }
    ensures cause { IsCounted i.0 (H.state host.old) (H.state host.new) result }
{
    give_up_previous(host, i, has_previous)?;
    give_up_current(host, i)
}

/// Gives up the saved state, if there is one.
pub fn give_up_previous<H: Host>(host: &mut H, i: DirNo, has_previous: bool) -> Result<(), Failed>
    requires below { i.0 < (H.state host.old).count }
    requires idle { H.told → IsIdle (disk_at (H.state host.old) i.0) }
    requires previous { H.told → (disk_at (H.state host.old) i.0).has Previous ≡ has_previous }
    ensures ok { H.told → OnOk result (WasGivenUp i.0 (H.state host.old) (H.state host.new)) }
    ensures any_moment { OnlyAt H.told i.0 (H.state host.old) (H.state host.new) (IsGivingUp (disk_at (H.state host.old) i.0)) }
    ensures cause { IsCounted i.0 (H.state host.old) (H.state host.new) result }
{
    if !has_previous {
        return Ok(());
    }
    host.rename_sub(i, Sub::Previous, Sub::FinalizedTmp)?;
    host.remove_sub(i, Sub::FinalizedTmp)
}

fn give_up_current<H: Host>(host: &mut H, i: DirNo) -> Result<(), Failed>
    requires below { i.0 < (H.state host.old).count }
    requires idle { H.told → IsIdle (disk_at (H.state host.old) i.0) }
    requires previous { H.told → (disk_at (H.state host.old) i.0).has Previous ≡ false }
    ensures ok { H.told → OnOk result (IsBare (disk_at (H.state host.new) i.0)) }
    ensures any_moment { OnlyAt H.told i.0 (H.state host.old) (H.state host.new) (λ d. FitsFresh d ⊎ (d ≡ disk_at (H.state host.old) i.0)) }
    ensures cause { IsCounted i.0 (H.state host.old) (H.state host.new) result }
{
    unformat(host, i)?;
    clear_unformatted(host, i)
}

// VERSION alone makes a directory formatted.
fn unformat<H: Host>(host: &mut H, i: DirNo) -> Result<(), Failed>
    requires below { i.0 < (H.state host.old).count }
    requires idle { H.told → IsIdle (disk_at (H.state host.old) i.0) }
    requires previous { H.told → (disk_at (H.state host.old) i.0).has Previous ≡ false }
    ensures ok { H.told → OnOk result (FitsFresh (disk_at (H.state host.new) i.0)) }
    ensures any_moment { OnlyAt H.told i.0 (H.state host.old) (H.state host.new) (λ d. FitsFresh d ⊎ (d ≡ disk_at (H.state host.old) i.0)) }
    ensures cause { IsCounted i.0 (H.state host.old) (H.state host.new) result }
{
    host.remove_file(i, Sub::Current, FileName::Version)
}

/// Removes what a directory that isn't formatted may still have: a `current` without VERSION, and `previous.checkpoint`.
pub fn clear_unformatted<H: Host>(host: &mut H, i: DirNo) -> Result<(), Failed>
    requires below { i.0 < (H.state host.old).count }
    requires fresh { H.told → FitsFresh (disk_at (H.state host.old) i.0) }
    ensures ok { H.told → OnOk result (IsBare (disk_at (H.state host.new) i.0)) }
    ensures any_moment { OnlyAt H.told i.0 (H.state host.old) (H.state host.new) FitsFresh }
    ensures cause { IsCounted i.0 (H.state host.old) (H.state host.new) result }
{
    host.remove_sub(i, Sub::Current)?;
    host.remove_sub(i, Sub::PreviousCheckpoint)
}
