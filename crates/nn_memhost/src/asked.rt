// What can be asked of a directory, and what it does to one that is kept in memory.
ghost use Rattle.std.specs.Prelude.{◌≡◌, OnOk, OnErr, if◌then◌else◌};
ghost use Rattle.nn_memhost.specs.declared.past.Part.TheVariants.{Nothing};
ghost use Rattle.nn_memhost.specs.Flight.{kept_flight};
ghost use Rattle.nn_memhost.specs.Asked.{call_of};
ghost use Rattle.nn_memhost.specs.Held.{held_of, kept_after, kept_part, kept_left};

use crate::kept::KeptDir;
use crate::past::{Part, taken};
use nn_base::{FileName, NoMemory, Sub};
use std::alloc::Global;

/// A call on a directory; those that change nothing are looks.
#[derive(Drop)]
pub enum Asked {
    Look,
    MakeSub(Sub),
    MakeFile(Sub, FileName),
    Append(Sub, FileName, Vec<u8>),
    Sync(Sub, FileName),
    RenameFile(Sub, FileName, FileName),
    RenameSub(Sub, Sub),
    RemoveFile(Sub, FileName),
    RemoveSub(Sub),
    Settle,
}

/// Does what a call that returns does.
pub fn carry_out(alloc: Global, dir: &mut KeptDir, asked: &Asked) -> Result<(), NoMemory>
    ensures ok { OnOk result (held_of dir.new ≡ kept_after (call_of asked.now) (held_of dir.old)) }
    ensures err { OnErr result (held_of dir.new ≡ held_of dir.old) }
{
    match asked {
        Asked::Look => Ok(()),
        Asked::MakeSub(sub) => {
            dir.make_sub(*sub);
            Ok(())
        }
        Asked::MakeFile(sub, name) => dir.make_file(alloc, *sub, *name),
        Asked::Append(sub, name, bytes) => dir.append(*sub, name, bytes, bytes.len()),
        Asked::Sync(sub, name) => {
            dir.sync(*sub, name);
            Ok(())
        }
        Asked::RenameFile(sub, from, to) => {
            dir.rename_file(*sub, from, to);
            Ok(())
        }
        Asked::RenameSub(from, to) => {
            dir.rename_sub(*from, *to);
            Ok(())
        }
        Asked::RemoveFile(sub, name) => {
            dir.remove_file(*sub, name);
            Ok(())
        }
        Asked::RemoveSub(sub) => {
            dir.remove_sub(*sub);
            Ok(())
        }
        Asked::Settle => {
            dir.settle();
            Ok(())
        }
    }
}

// Does what a call that fails does where it leaves a part: bytes of an append are handed over.
fn carry_part(dir: &mut KeptDir, asked: &Asked, part: Part) -> Result<(), NoMemory>
    ensures ok { OnOk result (held_of dir.new ≡ kept_part part (call_of asked.now) (held_of dir.old)) }
    ensures err { OnErr result (held_of dir.new ≡ held_of dir.old) }
{
    match asked {
        Asked::Append(sub, name, bytes) => {
            let count = taken(Some(part), bytes);
            dir.append(*sub, name, bytes, count)
        }
        Asked::Look => Ok(()),
        Asked::MakeSub(_) => Ok(()),
        Asked::MakeFile(_, _) => Ok(()),
        Asked::Sync(_, _) => Ok(()),
        Asked::RenameFile(_, _, _) => Ok(()),
        Asked::RenameSub(_, _) => Ok(()),
        Asked::RemoveFile(_, _) => Ok(()),
        Asked::RemoveSub(_) => Ok(()),
        Asked::Settle => Ok(()),
    }
}

/// Does what the call leaves: all of it where it returns, and else the part that the list of faults says.
pub fn carry(
    alloc: Global,
    dir: &mut KeptDir,
    asked: &Asked,
    failed: Option<Part>,
) -> Result<(), NoMemory>
    ensures ok { OnOk result (held_of dir.new ≡ kept_left failed (call_of asked.now) (held_of dir.old)) }
    ensures err { OnErr result (held_of dir.new ≡ held_of dir.old) }
{
    match failed {
        None => carry_out(alloc, dir, asked),
        Some(Part::All) => carry_out(alloc, dir, asked),
        Some(Part::Half) => carry_part(dir, asked, Part::Half),
        Some(Part::Nothing) => carry_part(dir, asked, Part::Nothing),
    }
}

// Does all of the call, or only hands over the bytes of an append.
fn carry_if(alloc: Global, dir: &mut KeptDir, asked: &Asked, done: bool) -> Result<(), NoMemory>
    ensures { OnOk result (held_of dir.new ≡ (if done then kept_after (call_of asked.now) (held_of dir.old) else kept_part Nothing (call_of asked.now) (held_of dir.old))) }
{
    if done {
        return carry_out(alloc, dir, asked);
    }
    carry_part(dir, asked, Part::Nothing)
}

/// Does the call as a stop inside it leaves it, where its name, rename or removal took place or not.
pub fn fly(alloc: Global, dir: &mut KeptDir, asked: &Asked, done: bool) -> Result<(), NoMemory>
    ensures { OnOk result (held_of dir.new ≡ kept_flight done (call_of asked.now) (held_of dir.old)) }
{
    match asked {
        Asked::Look => Ok(()),
        Asked::Sync(_, _) => Ok(()),
        Asked::Settle => Ok(()),
        Asked::Append(_, _, _) => carry_if(alloc, dir, asked, done),
        Asked::MakeSub(_) => carry_if(alloc, dir, asked, done),
        Asked::MakeFile(_, _) => carry_if(alloc, dir, asked, done),
        Asked::RenameFile(_, _, _) => carry_if(alloc, dir, asked, done),
        Asked::RenameSub(_, _) => carry_if(alloc, dir, asked, done),
        Asked::RemoveFile(_, _) => carry_if(alloc, dir, asked, done),
        Asked::RemoveSub(_) => carry_if(alloc, dir, asked, done),
    }
}
