// Stops inside the recorded calls of the host in memory, and the host that starts on what one leaves.
ghost use Rattle.std.specs.Prelude.{◌≡◌, ◌<◌, ◌≤◌, [], ℕ, length, take, IfOk};
ghost use Rattle.nn_memhost.specs.Past.{run, kept_at};

use crate::kept::KeptDir;
use crate::mem::MemHost;
use crate::stop::{Choice, StopFault};
use crate::{counts, dirs};
use nn_base::NoMemory;

impl MemHost {
    ghost use Rattle.std.specs.Prelude.{IsErrOf, ◌↔◌};
    ghost use Rattle.nn_host.specs.Moments.{moment};
    ghost use Rattle.nn_memhost.specs.declared.stop.StopFault.TheVariants as fault;
    ghost use Rattle.nn_memhost.specs.Stop.{IsStop};
    ghost use Rattle.nn_memhost.specs.Left.{IsLeft, IsFresh};
    ghost use Rattle.nn_memhost.specs.Mem.{start_of, mem_state};

    // The contents before call k was begun.
    fn replayed(&self, k: usize) -> Result<Vec<KeptDir>, NoMemory>
        requires { k < length self.now.calls.items }
        ensures count { IfOk result (λ kept. length kept.items ≡ length self.now.dirs.items) }
        ensures value { IfOk result (λ kept. (j : ℕ) → kept_at kept.items j ≡ (run (start_of self.now) (take k self.now.calls.items)).now.kept j) }
    {
        let mut kept = match &self.base {
            Some(base) => dirs::copy(self.alloc, base)?,
            None => dirs::copy(self.alloc, &self.dirs)?,
        };
        'calls: for logged in &self.calls[..k] {
            dirs::replay(self.alloc, &mut kept, logged)?;
        }
        Ok(kept)
    }

    // The contents that a stop inside call k leaves.
    fn contents_at(&self, k: usize, choice: Choice) -> Result<Vec<KeptDir>, NoMemory>
        requires { k < length self.now.calls.items }
        ensures { IfOk result (IsLeft k choice self.now) }
    {
        let mut kept = self.replayed(k)?;
        let last = &self.calls[k];
        dirs::fly(self.alloc, &mut kept, last, choice.done)?;
        dirs::stopped(self.alloc, &kept, choice.keep)
    }

    /// A host with the contents that a stop inside call k leaves, all of them synced, as one that starts on them finds
    /// them: nothing is said or recorded yet, nothing has failed, and no call is to fail.
    ///
    /// `NoSuchCall` where not so many calls were recorded.
    pub fn stopped_at(&self, k: u64, choice: Choice) -> Result<MemHost, StopFault>
        ensures stop { IfOk result (λ m. IsStop k choice (mem_state self.now) (mem_state m)) }
        ensures fresh { IfOk result (λ m. IsFresh (mem_state m) × (m.starved ≡ 0) × (m.fails.items ≡ [])) }
        ensures none { IsErrOf result fault.NoSuchCall ↔ (moment (mem_state self.now) ≤ k) }
    {
        if k >= self.calls() {
            return Err(StopFault::NoSuchCall);
        }
        let Ok(kept) = self.contents_at(k as usize, choice) else {
            return Err(StopFault::Memory);
        };
        Ok(MemHost {
            alloc: self.alloc,
            dirs: kept,
            base: None,
            said: Vec::new(self.alloc),
            counts: counts::none(),
            fails: Vec::new(self.alloc),
            starved: 0,
            calls: Vec::new(self.alloc),
            began: counts::none(),
            said_before: 0,
        })
    }
}
