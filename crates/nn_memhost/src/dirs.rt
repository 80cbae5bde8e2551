// All directories that are kept in memory.
ghost use Rattle.std.specs.Prelude.{◌≡◌, ◌<◌, ℕ, [], true, OnOk, OnErr, IfOk, length};
ghost use Rattle.nn_memhost.specs.Asked.{call_of};
ghost use Rattle.nn_memhost.specs.Held.{bare, held_of, kept_left, given, rootless, settled, map_held};
ghost use Rattle.nn_memhost.specs.Flight.{kept_flight, all_flight};
ghost use Rattle.nn_memhost.specs.Stop.{stopped_content};
ghost use Rattle.nn_memhost.specs.Past.{kept_at, put_at, after, is_below};

use crate::asked::{self, Asked};
use crate::kept::KeptDir;
use crate::past::{Logged, Part, Request};
use crate::stop::Keep;
use nn_base::{DirNo, FileName, NoMemory, Sub};
use std::alloc::Global;

/// So many directories, with all roots and nothing in them.
pub fn bare(alloc: Global, count: u8) -> Result<Vec<KeptDir>, NoMemory>
    ensures count { IfOk result (λ dirs. length dirs.items ≡ count) }
    ensures bare { IfOk result (λ dirs. (j : ℕ) → kept_at dirs.items j ≡ bare) }
{
    let mut dirs = Vec::with_capacity(alloc, count as usize)?;
    'dirs: for _ in 0..count {
        dirs.push(KeptDir::bare(alloc))?;
    }
    Ok(dirs)
}

/// A copy of these directories.
pub fn copy(alloc: Global, dirs: &[KeptDir]) -> Result<Vec<KeptDir>, NoMemory>
    ensures count { IfOk result (λ copies. length copies.items ≡ length dirs.now) }
    ensures same { IfOk result (λ copies. (j : ℕ) → kept_at copies.items j ≡ kept_at dirs.now j) }
{
    let mut copies = Vec::with_capacity(alloc, dirs.len())?;
    'dirs: for dir in dirs {
        copies.push(dir.copy_of(alloc)?)?;
    }
    Ok(copies)
}

/// Copies of what a stop leaves of these directories.
pub fn stopped(alloc: Global, dirs: &[KeptDir], keep: Keep) -> Result<Vec<KeptDir>, NoMemory>
    ensures count { IfOk result (λ left. length left.items ≡ length dirs.now) }
    ensures left { IfOk result (λ left. (j : ℕ) → kept_at left.items j ≡ map_held (stopped_content keep) (kept_at dirs.now j)) }
{
    let mut left = Vec::with_capacity(alloc, dirs.len())?;
    'dirs: for dir in dirs {
        left.push(dir.stopped(alloc, keep)?)?;
    }
    Ok(left)
}

/// Does a recorded call again.
pub fn replay(alloc: Global, dirs: &mut Vec<KeptDir>, logged: &Logged) -> Result<(), NoMemory>
    requires { is_below (length dirs.old.items) logged.now ≡ true }
    ensures ok { OnOk result ((j : ℕ) → kept_at dirs.new.items j ≡ (after logged.now.request logged.now.failed (record { kept = kept_at dirs.old.items; said = [] })).kept j) }
    ensures len { length dirs.new.items ≡ length dirs.old.items }
{
    match &logged.request {
        Request::On(i, asked) => carry_at(alloc, dirs, *i, asked, logged.failed),
        Request::Say(_) => Ok(()),
    }
}

/// Does a recorded call as a stop inside it leaves it, where its name, rename or removal took place or not.
pub fn fly(
    alloc: Global,
    dirs: &mut Vec<KeptDir>,
    logged: &Logged,
    done: bool,
) -> Result<(), NoMemory>
    requires { is_below (length dirs.old.items) logged.now ≡ true }
    ensures ok { OnOk result ((j : ℕ) → kept_at dirs.new.items j ≡ all_flight done logged.now.request (kept_at dirs.old.items) j) }
    ensures len { length dirs.new.items ≡ length dirs.old.items }
{
    match &logged.request {
        Request::On(i, asked) => fly_at(alloc, dirs, *i, asked, done),
        Request::Say(_) => Ok(()),
    }
}

fn fly_at(
    alloc: Global,
    dirs: &mut Vec<KeptDir>,
    i: DirNo,
    asked: &Asked,
    done: bool,
) -> Result<(), NoMemory>
    requires { i.0 < length dirs.old.items }
    ensures ok { OnOk result ((j : ℕ) → kept_at dirs.new.items j ≡ put_at i.0 (kept_flight done (call_of asked.now) (kept_at dirs.old.items i.0)) (kept_at dirs.old.items) j) }
    ensures len { length dirs.new.items ≡ length dirs.old.items }
{
    let dir = &mut dirs[i.0 as usize];
    asked::fly(alloc, dir, asked, done)
}

/// Does what the call leaves to directory `i`.
pub fn carry_at(
    alloc: Global,
    dirs: &mut Vec<KeptDir>,
    i: DirNo,
    asked: &Asked,
    failed: Option<Part>,
) -> Result<(), NoMemory>
    requires { i.0 < length dirs.old.items }
    ensures ok { OnOk result ((j : ℕ) → kept_at dirs.new.items j ≡ put_at i.0 (kept_left failed (call_of asked.now) (kept_at dirs.old.items i.0)) (kept_at dirs.old.items) j) }
    ensures err { OnErr result ((j : ℕ) → kept_at dirs.new.items j ≡ kept_at dirs.old.items j) }
    ensures len { length dirs.new.items ≡ length dirs.old.items }
{
    let dir = &mut dirs[i.0 as usize];
    asked::carry(alloc, dir, asked, failed)
}

/// Gives directory `i` a file.
pub fn give_at(
    dirs: &mut Vec<KeptDir>,
    i: DirNo,
    sub: Sub,
    name: FileName,
    bytes: Vec<u8>,
) -> Result<(), NoMemory>
    requires { i.0 < length dirs.old.items }
    ensures ok { OnOk result ((j : ℕ) → kept_at dirs.new.items j ≡ put_at i.0 (given sub name bytes.items (kept_at dirs.old.items i.0)) (kept_at dirs.old.items) j) }
    ensures err { OnErr result ((j : ℕ) → kept_at dirs.new.items j ≡ kept_at dirs.old.items j) }
    ensures len { length dirs.new.items ≡ length dirs.old.items }
{
    let dir = &mut dirs[i.0 as usize];
    dir.give(sub, name, bytes)
}

/// Takes the root of directory `i` away.
pub fn unroot_at(dirs: &mut Vec<KeptDir>, i: DirNo)
    requires { i.0 < length dirs.old.items }
    ensures value { (j : ℕ) → kept_at dirs.new.items j ≡ put_at i.0 rootless (kept_at dirs.old.items) j }
    ensures len { length dirs.new.items ≡ length dirs.old.items }
{
    let dir = &mut dirs[i.0 as usize];
    dir.unroot();
}

/// Makes all that reads last.
pub fn settle_all(dirs: &mut Vec<KeptDir>)
    ensures value { (j : ℕ) → kept_at dirs.new.items j ≡ settled (kept_at dirs.old.items j) }
    ensures len { length dirs.new.items ≡ length dirs.old.items }
{
    'dirs: for k in 0..dirs.len() {
        let dir = &mut dirs[k];
        dir.settle();
    }
}
