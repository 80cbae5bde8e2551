// The trait over all directories and the output.
ghost use Rattle.std.specs.Prelude.{◌≡◌, ◌<◌, ◌≤◌, ◌++◌, List, length, OnOk, IfOk, IsErrOf, is_some};
ghost use Rattle.nn_base.specs.Limits.{most_piece};
ghost use Rattle.nn_base.specs.declared.file_name.FileName.{FileName as Name};
ghost use Rattle.nn_host.specs.declared.host.ListFault.TheVariants as list_fault;
ghost use Rattle.nn_host.specs.Disk.{Look, MakeSub, MakeFile, Append, Sync, RenameFile, RenameSub, RemoveFile, RemoveSub, Settle};
ghost use Rattle.nn_host.specs.Listing.{IsListing, AreNames, host_part, bytes_of, IsRead};
ghost use Rattle.nn_host.specs.Moments.{State, IsLawful};
ghost use Rattle.nn_host.specs.Calls.{Called, Spoke};

use nn_base::limits::MOST_PIECE;
use nn_base::{DirNo, FileName, Sub};

/// A call of the host failed: the system refused it for another reason than an absent name.
#[derive(Clone, Copy, Debug, PartialEq, Eq)]
pub struct Failed;

/// The most bytes that `Host::say` takes at once. A longer text goes out in several pieces.
pub const MOST_SAID: usize = MOST_PIECE;

/// Why a folder wasn't listed.
#[derive(Clone, Copy, Debug, PartialEq, Eq)]
pub enum ListFault {
    /// The call of the host failed.
    Failed,
    /// There was no memory for the names; the host itself didn't fail.
    Memory,
}

/// All name directories and the output, so that what was said and what a stop may leave belong to one moment.
///
/// A host either tells its contents, or it tells nothing but the number of directories and its counts of faults.
/// A call that finds no such name changes nothing and answers as of an empty one: misuse is in itself no reason to fail.
pub trait Host {
    /// That it tells its contents.
    ghost told: { Type 0 };

    /// What it means. Of a host that doesn't tell only the count of directories and those of faults mean anything.
    ghost state: { Self → State };

    /// How many directories there are.
    fn count(&self) -> u8
        ensures count { result ≡ (state self.now).count }
        ensures few { result ≤ 8 };

    /// Whether the directory itself is there and is a folder, or a link that leads to one.
    fn has_root(&mut self, i: DirNo) -> Result<bool, Failed>
        requires { i.0 < (state self.old).count }
        ensures call { Called told i.0 Look (state self.old) (state self.new) result }
        ensures value { told → IfOk result (λ there. there ≡ ((state self.old).reads i.0).root) };

    /// Whether it has this subfolder.
    fn has_sub(&mut self, i: DirNo, sub: Sub) -> Result<bool, Failed>
        requires { i.0 < (state self.old).count }
        ensures call { Called told i.0 Look (state self.old) (state self.new) result }
        ensures value { told → IfOk result (λ there. there ≡ ((state self.old).reads i.0).has sub) };

    /// Whether this file is there.
    fn has_file(&mut self, i: DirNo, sub: Sub, name: FileName) -> Result<bool, Failed>
        requires { i.0 < (state self.old).count }
        ensures call { Called told i.0 Look (state self.old) (state self.new) result }
        ensures value { told → IfOk result (λ there. there ≡ is_some (((state self.old).reads i.0).file sub name)) };

    /// Puts the names of this subfolder's files behind those of `out`, in the byte order of their texts. Files whose names
    /// have no reading as a `FileName` are passed over.
    ///
    /// After `Memory` `out` is as before; after `Failed` it may hold some of the names besides.
    fn list(&mut self, i: DirNo, sub: Sub, out: &mut Vec<FileName>) -> Result<(), ListFault>
        requires { i.0 < (state self.old).count }
        ensures call { Called told i.0 Look (state self.old) (state self.new) (host_part result) }
        ensures ok { told → OnOk result ((names : List Name) × (out.new.items ≡ out.old.items ++ names) × IsListing ((state self.old).reads i.0) sub names) }
        ensures failed { told → IsErrOf result list_fault.Failed → (names : List Name) × (out.new.items ≡ out.old.items ++ names) × AreNames ((state self.old).reads i.0) sub names }
        ensures memory { IsErrOf result list_fault.Memory → out.new.items ≡ out.old.items }
        ensures kept { (names : List Name) × (out.new.items ≡ out.old.items ++ names) };

    /// How many bytes this file has; 0 where it isn't there.
    fn size(&mut self, i: DirNo, sub: Sub, name: FileName) -> Result<u64, Failed>
        requires { i.0 < (state self.old).count }
        ensures call { Called told i.0 Look (state self.old) (state self.new) result }
        ensures value { told → IfOk result (λ size. size ≡ length (bytes_of (((state self.old).reads i.0).file sub name))) };

    /// Reads bytes of this file, from the byte `at` on, to the front of `out`, and says how many: as many as `out` takes,
    /// fewer only at the end of the file.
    fn read_at(
        &mut self,
        i: DirNo,
        sub: Sub,
        name: FileName,
        at: u64,
        out: &mut [u8],
    ) -> Result<usize, Failed>
        requires { i.0 < (state self.old).count }
        ensures call { Called told i.0 Look (state self.old) (state self.new) result }
        ensures within { IfOk result (λ n. n ≤ length out.old) }
        ensures value { told → IfOk result (λ n. IsRead (((state self.old).reads i.0).file sub name) at n out.old out.new) };

    /// Makes an empty subfolder, where there is none.
    fn make_sub(&mut self, i: DirNo, sub: Sub) -> Result<(), Failed>
        requires { i.0 < (state self.old).count }
        ensures { Called told i.0 (MakeSub sub) (state self.old) (state self.new) result };

    /// Makes an empty file, or empties the one that is there.
    fn make_file(&mut self, i: DirNo, sub: Sub, name: FileName) -> Result<(), Failed>
        requires { i.0 < (state self.old).count }
        ensures { Called told i.0 (MakeFile sub name) (state self.old) (state self.new) result };

    /// Puts these bytes behind those of the file. A stop may leave any part of them until the file is synced.
    fn append(&mut self, i: DirNo, sub: Sub, name: FileName, bytes: &[u8]) -> Result<(), Failed>
        requires { i.0 < (state self.old).count }
        ensures { Called told i.0 (Append sub name bytes.now) (state self.old) (state self.new) result };

    /// Makes the file's bytes last: a stop from here on leaves them as they read.
    fn sync(&mut self, i: DirNo, sub: Sub, name: FileName) -> Result<(), Failed>
        requires { i.0 < (state self.old).count }
        ensures { Called told i.0 (Sync sub name) (state self.old) (state self.new) result };

    /// Gives the file `from` the name `to`, in one step; a file that had that name is gone.
    fn rename_file(
        &mut self,
        i: DirNo,
        sub: Sub,
        from: FileName,
        to: FileName,
    ) -> Result<(), Failed>
        requires { i.0 < (state self.old).count }
        ensures { Called told i.0 (RenameFile sub from to) (state self.old) (state self.new) result };

    /// Gives the subfolder `from` the name `to`, in one step and with all that it holds. Where `to` is there already,
    /// nothing is done.
    fn rename_sub(&mut self, i: DirNo, from: Sub, to: Sub) -> Result<(), Failed>
        requires { i.0 < (state self.old).count }
        ensures { Called told i.0 (RenameSub from to) (state self.old) (state self.new) result };

    /// Removes the file.
    fn remove_file(&mut self, i: DirNo, sub: Sub, name: FileName) -> Result<(), Failed>
        requires { i.0 < (state self.old).count }
        ensures { Called told i.0 (RemoveFile sub name) (state self.old) (state self.new) result };

    /// Removes the subfolder with all that it holds. A stop inside may leave any part of it.
    fn remove_sub(&mut self, i: DirNo, sub: Sub) -> Result<(), Failed>
        requires { i.0 < (state self.old).count }
        ensures { Called told i.0 (RemoveSub sub) (state self.old) (state self.new) result };

    /// Makes all that the directory reads last, and changes nothing that reads.
    fn settle(&mut self, i: DirNo) -> Result<(), Failed>
        requires { i.0 < (state self.old).count }
        ensures { Called told i.0 Settle (state self.old) (state self.new) result };

    /// Writes these bytes to the output, behind all that was said: at most `MOST_SAID` at once.
    fn say(&mut self, bytes: &[u8]) -> Result<(), Failed>
        requires { length bytes.now ≤ most_piece }
        ensures { Spoke told bytes.now (state self.old) (state self.new) result };

    ghost lawful: { told → (host : Self) → IsLawful (state host) };
}
