// The calls of the host in memory: each is done, written down and answered as its list says.
ghost use Rattle.std.specs.Prelude.{◌≡◌, ◌<◌, ◌≤◌, ◌++◌, ◌∷◌, [], ℕ, length, vec_len, vec_capacity, OnOk, OnErr, IfOk, IsSome, is_some};
ghost use Rattle.nn_memhost.specs.Base.{base_of};
ghost use Rattle.nn_memhost.specs.Past.{kept_at};

use crate::asked::Asked;
use crate::counts::{self, Counts};
use crate::kept::{self, KeptDir, files};
use crate::mem::MemHost;
use crate::past::{self, Logged, Part, Request};
use crate::{dirs, names};
use nn_base::{DirNo, FileName, NoMemory, Sub};
use nn_host::{Failed, Host, ListFault};
use std::alloc::Global;

// Keeps the contents as of the beginning of the record, before a first call changes them.
fn keep_base(
    alloc: Global,
    base: &mut Option<Vec<KeptDir>>,
    kept: &[KeptDir],
) -> Result<(), NoMemory>
    ensures there { OnOk result (IsSome base.new) }
    ensures len { length (base_of base.old kept.now) ≡ length kept.now → length (base_of base.new kept.now) ≡ length kept.now }
    ensures same { (j : ℕ) → kept_at (base_of base.new kept.now) j ≡ kept_at (base_of base.old kept.now) j }
{
    if base.is_none() {
        *base = Some(dirs::copy(alloc, kept)?);
    }
    Ok(())
}

// Writes down a call for which there is room.
fn note(calls: &mut Vec<Logged>, logged: Logged)
    requires { vec_len calls.old < vec_capacity calls.old }
    ensures { calls.new.items ≡ calls.old.items ++ logged ∷ [] }
{
    let _ = calls.push(logged);
}

impl MemHost {
    ghost use Rattle.nn_host.specs.Calls.{Called, next_count};
    ghost use Rattle.nn_memhost.specs.declared.past.Request.TheVariants as request;
    ghost use Rattle.nn_memhost.specs.Asked.{call_of};
    ghost use Rattle.nn_memhost.specs.Past.{one};
    ghost use Rattle.nn_memhost.specs.Mem.{past_of, mem_state, FailsAsListed};
    ghost use Rattle.nn_memhost.specs.Leaving.{LeavesAsListed};

    // Counts a call for which there was no memory; the counts of faults are to be these.
    fn starve(&mut self, raised: Counts) -> Failed
        ensures past { past_of self.new ≡ past_of self.old }
        ensures count { length self.new.dirs.items ≡ length self.old.dirs.items }
        ensures counts { self.new.counts ≡ raised }
        ensures starved { self.new.starved ≡ next_count self.old.starved }
        ensures fails { self.new.fails ≡ self.old.fails }
    {
        self.starved = self.starved.saturating_add(1);
        self.counts = raised;
        Failed
    }

    // Does and writes down a call on a directory, with what the list says that it leaves. Without memory for all of it
    // it does nothing.
    fn perform(&mut self, i: DirNo, asked: Asked, failed: Option<Part>) -> Result<(), NoMemory>
        requires { i.0 < length self.old.dirs.items }
        ensures ok { OnOk result (past_of self.new ≡ one (past_of self.old) (record { request = request.On i asked; failed = failed; before = self.old.counts })) }
        ensures err { OnErr result (past_of self.new ≡ past_of self.old) }
        ensures count { length self.new.dirs.items ≡ length self.old.dirs.items }
        ensures counts { self.new.counts ≡ self.old.counts }
        ensures fails { self.new.fails ≡ self.old.fails }
        ensures starved { self.new.starved ≡ self.old.starved }
    {
        keep_base(self.alloc, &mut self.base, &self.dirs)?;
        self.calls.reserve(1)?;
        dirs::carry_at(self.alloc, &mut self.dirs, i, &asked, failed)?;
        let logged = Logged {
            request: Request::On(i, asked),
            failed,
            before: self.counts,
        };
        note(&mut self.calls, logged);
        Ok(())
    }

    // Asks a directory: the call is done and recorded, and fails where the list says so.
    fn ask(&mut self, i: DirNo, asked: Asked) -> Result<(), Failed>
        requires { i.0 < (mem_state self.old).count }
        ensures call { Called (Unit {0}) i.0 (call_of asked) (mem_state self.old) (mem_state self.new) result }
        ensures cause { FailsAsListed self.old self.new result }
        ensures part { LeavesAsListed i.0 (call_of asked) self.old self.new }
    {
        let failed = past::part_of(&self.fails, self.calls.len() as u64);
        if self.perform(i, asked, failed).is_err() {
            return Err(self.starve(counts::raise(self.counts, i.0)));
        }
        match failed {
            None => Ok(()),
            Some(_) => {
                self.counts = counts::raise(self.counts, i.0);
                Err(Failed)
            }
        }
    }
}

impl Host for MemHost {
    ghost use Rattle.std.specs.Prelude.{List, IsErrOf};
    ghost use Rattle.nn_base.specs.declared.file_name.FileName.{FileName as Name};
    ghost use Rattle.nn_host.specs.declared.host.ListFault.TheVariants as list_fault;
    ghost use Rattle.nn_host.specs.Disk.{Look, MakeSub, MakeFile, Append, Sync, RenameFile, RenameSub, RemoveFile, RemoveSub, Settle};
    ghost use Rattle.nn_host.specs.Calls.{Called, Spoke};
    ghost use Rattle.nn_host.specs.Listing.{IsListing, AreNames, host_part, bytes_of, IsRead};
    ghost use Rattle.nn_memhost.specs.Mem.{mem_state, FailsAsListed, SaysAsListed};
    ghost use Rattle.nn_memhost.specs.Leaving.{LeavesAsListed};
    ghost use Rattle.nn_memhost.specs.Lawful.{mem_lawful};

    ghost told = { Unit {0} };

    ghost state = { mem_state };

    fn count(&self) -> u8 {
        self.dirs.len() as u8
    }

    fn has_root(&mut self, i: DirNo) -> Result<bool, Failed>
        requires { i.0 < (mem_state self.old).count }
        ensures call { Called (Unit {0}) i.0 Look (mem_state self.old) (mem_state self.new) result }
        ensures value { Unit {0} → IfOk result (λ there. there ≡ ((mem_state self.old).reads i.0).root) }
        ensures cause { FailsAsListed self.old self.new result }
        ensures part { LeavesAsListed i.0 Look self.old self.new }
    {
        let dir = &self.dirs[i.0 as usize];
        let there = dir.root;
        self.ask(i, Asked::Look)?;
        Ok(there)
    }

    fn has_sub(&mut self, i: DirNo, sub: Sub) -> Result<bool, Failed>
        requires { i.0 < (mem_state self.old).count }
        ensures call { Called (Unit {0}) i.0 Look (mem_state self.old) (mem_state self.new) result }
        ensures value { Unit {0} → IfOk result (λ there. there ≡ ((mem_state self.old).reads i.0).has sub) }
        ensures cause { FailsAsListed self.old self.new result }
        ensures part { LeavesAsListed i.0 Look self.old self.new }
    {
        let dir = &self.dirs[i.0 as usize];
        let there = kept::has_sub(&dir.subs, sub);
        self.ask(i, Asked::Look)?;
        Ok(there)
    }

    fn has_file(&mut self, i: DirNo, sub: Sub, name: FileName) -> Result<bool, Failed>
        requires { i.0 < (mem_state self.old).count }
        ensures call { Called (Unit {0}) i.0 Look (mem_state self.old) (mem_state self.new) result }
        ensures value { Unit {0} → IfOk result (λ there. there ≡ is_some (((mem_state self.old).reads i.0).file sub name)) }
        ensures cause { FailsAsListed self.old self.new result }
        ensures part { LeavesAsListed i.0 Look self.old self.new }
    {
        let dir = &self.dirs[i.0 as usize];
        let there = files::has(&dir.files, sub, &name);
        self.ask(i, Asked::Look)?;
        Ok(there)
    }

    fn list(&mut self, i: DirNo, sub: Sub, out: &mut Vec<FileName>) -> Result<(), ListFault>
        requires { i.0 < (mem_state self.old).count }
        ensures call { Called (Unit {0}) i.0 Look (mem_state self.old) (mem_state self.new) (host_part result) }
        ensures ok { Unit {0} → OnOk result ((names : List Name) × (out.new.items ≡ out.old.items ++ names) × IsListing ((mem_state self.old).reads i.0) sub names) }
        ensures failed { Unit {0} → IsErrOf result list_fault.Failed → (names : List Name) × (out.new.items ≡ out.old.items ++ names) × AreNames ((mem_state self.old).reads i.0) sub names }
        ensures memory { IsErrOf result list_fault.Memory → out.new.items ≡ out.old.items }
        ensures kept { (names : List Name) × (out.new.items ≡ out.old.items ++ names) }
        ensures cause { FailsAsListed self.old self.new (host_part result) }
        ensures part { LeavesAsListed i.0 Look self.old self.new }
    {
        if self.ask(i, Asked::Look).is_err() {
            return Err(ListFault::Failed);
        }
        let dir = &self.dirs[i.0 as usize];
        let Ok(names) = names::names_in(self.alloc, &dir.files, sub) else {
            return Err(ListFault::Memory);
        };
        if out.extend_from_slice(&names).is_err() {
            return Err(ListFault::Memory);
        }
        Ok(())
    }

    fn size(&mut self, i: DirNo, sub: Sub, name: FileName) -> Result<u64, Failed>
        requires { i.0 < (mem_state self.old).count }
        ensures call { Called (Unit {0}) i.0 Look (mem_state self.old) (mem_state self.new) result }
        ensures value { Unit {0} → IfOk result (λ size. size ≡ length (bytes_of (((mem_state self.old).reads i.0).file sub name))) }
        ensures cause { FailsAsListed self.old self.new result }
        ensures part { LeavesAsListed i.0 Look self.old self.new }
    {
        let dir = &self.dirs[i.0 as usize];
        let size = files::size(&dir.files, sub, &name);
        self.ask(i, Asked::Look)?;
        Ok(size)
    }

    fn read_at(
        &mut self,
        i: DirNo,
        sub: Sub,
        name: FileName,
        at: u64,
        out: &mut [u8],
    ) -> Result<usize, Failed>
        requires { i.0 < (mem_state self.old).count }
        ensures call { Called (Unit {0}) i.0 Look (mem_state self.old) (mem_state self.new) result }
        ensures within { IfOk result (λ n. n ≤ length out.old) }
        ensures value { Unit {0} → IfOk result (λ n. IsRead (((mem_state self.old).reads i.0).file sub name) at n out.old out.new) }
        ensures cause { FailsAsListed self.old self.new result }
        ensures part { LeavesAsListed i.0 Look self.old self.new }
    {
        let dir = &self.dirs[i.0 as usize];
        let n = files::read_at(&dir.files, sub, &name, at, out);
        self.ask(i, Asked::Look)?;
        Ok(n)
    }

    fn make_sub(&mut self, i: DirNo, sub: Sub) -> Result<(), Failed>
        requires { i.0 < (mem_state self.old).count }
        ensures call { Called (Unit {0}) i.0 (MakeSub sub) (mem_state self.old) (mem_state self.new) result }
        ensures cause { FailsAsListed self.old self.new result }
        ensures part { LeavesAsListed i.0 (MakeSub sub) self.old self.new }
    {
        self.ask(i, Asked::MakeSub(sub))
    }

    fn make_file(&mut self, i: DirNo, sub: Sub, name: FileName) -> Result<(), Failed>
        requires { i.0 < (mem_state self.old).count }
        ensures call { Called (Unit {0}) i.0 (MakeFile sub name) (mem_state self.old) (mem_state self.new) result }
        ensures cause { FailsAsListed self.old self.new result }
        ensures part { LeavesAsListed i.0 (MakeFile sub name) self.old self.new }
    {
        self.ask(i, Asked::MakeFile(sub, name))
    }

    fn append(&mut self, i: DirNo, sub: Sub, name: FileName, bytes: &[u8]) -> Result<(), Failed>
        requires { i.0 < (mem_state self.old).count }
        ensures call { Called (Unit {0}) i.0 (Append sub name bytes.now) (mem_state self.old) (mem_state self.new) result }
        ensures cause { FailsAsListed self.old self.new result }
        ensures part { LeavesAsListed i.0 (Append sub name bytes.now) self.old self.new }
    {
        let Ok(copy) = Vec::from_slice(self.alloc, bytes) else {
            return Err(self.starve(counts::raise(self.counts, i.0)));
        };
        self.ask(i, Asked::Append(sub, name, copy))
    }

    fn sync(&mut self, i: DirNo, sub: Sub, name: FileName) -> Result<(), Failed>
        requires { i.0 < (mem_state self.old).count }
        ensures call { Called (Unit {0}) i.0 (Sync sub name) (mem_state self.old) (mem_state self.new) result }
        ensures cause { FailsAsListed self.old self.new result }
        ensures part { LeavesAsListed i.0 (Sync sub name) self.old self.new }
    {
        self.ask(i, Asked::Sync(sub, name))
    }

    fn rename_file(
        &mut self,
        i: DirNo,
        sub: Sub,
        from: FileName,
        to: FileName,
    ) -> Result<(), Failed>
        requires { i.0 < (mem_state self.old).count }
        ensures call { Called (Unit {0}) i.0 (RenameFile sub from to) (mem_state self.old) (mem_state self.new) result }
        ensures cause { FailsAsListed self.old self.new result }
        ensures part { LeavesAsListed i.0 (RenameFile sub from to) self.old self.new }
    {
        self.ask(i, Asked::RenameFile(sub, from, to))
    }

    fn rename_sub(&mut self, i: DirNo, from: Sub, to: Sub) -> Result<(), Failed>
        requires { i.0 < (mem_state self.old).count }
        ensures call { Called (Unit {0}) i.0 (RenameSub from to) (mem_state self.old) (mem_state self.new) result }
        ensures cause { FailsAsListed self.old self.new result }
        ensures part { LeavesAsListed i.0 (RenameSub from to) self.old self.new }
    {
        self.ask(i, Asked::RenameSub(from, to))
    }

    fn remove_file(&mut self, i: DirNo, sub: Sub, name: FileName) -> Result<(), Failed>
        requires { i.0 < (mem_state self.old).count }
        ensures call { Called (Unit {0}) i.0 (RemoveFile sub name) (mem_state self.old) (mem_state self.new) result }
        ensures cause { FailsAsListed self.old self.new result }
        ensures part { LeavesAsListed i.0 (RemoveFile sub name) self.old self.new }
    {
        self.ask(i, Asked::RemoveFile(sub, name))
    }

    fn remove_sub(&mut self, i: DirNo, sub: Sub) -> Result<(), Failed>
        requires { i.0 < (mem_state self.old).count }
        ensures call { Called (Unit {0}) i.0 (RemoveSub sub) (mem_state self.old) (mem_state self.new) result }
        ensures cause { FailsAsListed self.old self.new result }
        ensures part { LeavesAsListed i.0 (RemoveSub sub) self.old self.new }
    {
        self.ask(i, Asked::RemoveSub(sub))
    }

    fn settle(&mut self, i: DirNo) -> Result<(), Failed>
        requires { i.0 < (mem_state self.old).count }
        ensures call { Called (Unit {0}) i.0 Settle (mem_state self.old) (mem_state self.new) result }
        ensures cause { FailsAsListed self.old self.new result }
        ensures part { LeavesAsListed i.0 Settle self.old self.new }
    {
        self.ask(i, Asked::Settle)
    }

    fn say(&mut self, bytes: &[u8]) -> Result<(), Failed>
        ensures call { Spoke (Unit {0}) bytes.now (mem_state self.old) (mem_state self.new) result }
        ensures cause { FailsAsListed self.old self.new result }
        ensures part { SaysAsListed bytes.now self.old self.new }
    {
        let failed = past::part_of(&self.fails, self.calls.len() as u64);
        if !past::utter(&mut self.calls, &mut self.said, bytes, failed, self.counts) {
            return Err(self.starve(counts::raise_out(self.counts)));
        }
        match failed {
            None => Ok(()),
            Some(_) => {
                self.counts = counts::raise_out(self.counts);
                Err(Failed)
            }
        }
    }

    ghost lawful = { λ _ m. mem_lawful m };
}
