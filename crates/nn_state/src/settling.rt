// What a directory has in which nothing is under way.
ghost use Rattle.std.specs.Prelude.{◌≡◌, ◌⊎◌, ◌<◌, false, IfOk, MatchResult, is_ok};
ghost use Rattle.nn_base.specs.declared.sub.Sub.TheVariants.{Previous};
ghost use Rattle.nn_host.specs.Disk.{Disk};
ghost use Rattle.nn_host.specs.Moments.{disk_at};
ghost use Rattle.nn_host.specs.Runs.{Looked, OnlyAt};
ghost use Rattle.nn_state.specs.declared.state.StorageState.TheVariants as state;
ghost use Rattle.nn_state.specs.Typed.{IsIn, FitsSettled, dir_in};

use crate::{Fresh, Normal, Ready, ReadyWithPrevious, Settled};
use nn_base::{DirNo, FileName, Sub};
use nn_host::{Failed, Host};

/// A call on this directory failed, so that what was to be done in it is undone or unfinished.
#[derive(Clone, Copy, Debug, PartialEq, Eq)]
pub struct Stuck(pub DirNo);

impl Settled {
    /// The directory.
    pub fn dir(&self) -> DirNo
        ensures { result ≡ dir_in self.now }
    {
        match self {
            Settled::Ready(it) => it.dir,
            Settled::ReadyWithPrevious(it) => it.dir,
            Settled::Fresh(it) => it.dir,
        }
    }

    /// Whether it has a saved state.
    pub fn has_previous(&self) -> bool
        ensures { (d : Disk) → FitsSettled self.now d → d.has Previous ≡ result }
    {
        matches!(self, Settled::ReadyWithPrevious(_))
    }
}

impl Normal {
    /// Looks whether there is a saved state. It changes nothing.
    pub fn settled<H: Host>(self, host: &mut H) -> Result<Settled, Stuck>
        requires below { self.dir.0 < (H.state host.old).count }
        requires fits { H.told → IsIn state.Normal (disk_at (H.state host.old) self.dir.0) }
        ensures fits { H.told → IfOk result (λ it. FitsSettled it (disk_at (H.state host.old) self.dir.0)) }
        ensures dir { MatchResult result (λ it. dir_in it ≡ self.dir) (λ stuck. stuck.0 ≡ self.dir) }
        ensures kept { Looked H.told self.dir.0 (H.state host.old) (H.state host.new) (is_ok result) }
        ensures any_moment { OnlyAt H.told self.dir.0 (H.state host.old) (H.state host.new) (λ d. d ≡ disk_at (H.state host.old) self.dir.0) }
    {
        by_previous(host, self.dir)
    }
}

/// A directory that serves, by whether it has a saved state.
pub fn by_previous<H: Host>(host: &mut H, i: DirNo) -> Result<Settled, Stuck>
    requires below { i.0 < (H.state host.old).count }
    ensures fits { H.told → IsIn state.Normal (disk_at (H.state host.old) i.0) → IfOk result (λ it. FitsSettled it (disk_at (H.state host.old) i.0)) }
    ensures dir { MatchResult result (λ it. dir_in it ≡ i) (λ stuck. stuck.0 ≡ i) }
    ensures kept { Looked H.told i.0 (H.state host.old) (H.state host.new) (is_ok result) }
    ensures any_moment { OnlyAt H.told i.0 (H.state host.old) (H.state host.new) (λ d. d ≡ disk_at (H.state host.old) i.0) }
{
    match host.has_sub(i, Sub::Previous) {
        Ok(true) => Ok(Settled::ReadyWithPrevious(ReadyWithPrevious { dir: i })),
        Ok(false) => Ok(Settled::Ready(Ready { dir: i })),
        Err(Failed) => Err(Stuck(i)),
    }
}

/// A directory without a saved state, by whether it serves.
pub fn by_version<H: Host>(host: &mut H, i: DirNo) -> Result<Settled, Stuck>
    requires below { i.0 < (H.state host.old).count }
    ensures fits { H.told → IsIn state.Normal (disk_at (H.state host.old) i.0) ⊎ IsIn state.NotFormatted (disk_at (H.state host.old) i.0) → (disk_at (H.state host.old) i.0).has Previous ≡ false → IfOk result (λ it. FitsSettled it (disk_at (H.state host.old) i.0)) }
    ensures dir { MatchResult result (λ it. dir_in it ≡ i) (λ stuck. stuck.0 ≡ i) }
    ensures kept { Looked H.told i.0 (H.state host.old) (H.state host.new) (is_ok result) }
    ensures any_moment { OnlyAt H.told i.0 (H.state host.old) (H.state host.new) (λ d. d ≡ disk_at (H.state host.old) i.0) }
{
    match host.has_file(i, Sub::Current, FileName::Version) {
        Ok(true) => Ok(Settled::Ready(Ready { dir: i })),
        Ok(false) => Ok(Settled::Fresh(Fresh { dir: i })),
        Err(Failed) => Err(Stuck(i)),
    }
}
