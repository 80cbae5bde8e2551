// The files of a directory that is kept in memory.
ghost use Rattle.std.specs.Prelude.{◌≡◌, ◌≤◌, ◌&&◌, None, Some, is_some, OnOk, OnErr, IfOk, option_map, if◌then◌else◌, length, map};
ghost use Rattle.std.specs.List.{position_or_len};
ghost use Rattle.nn_base.specs.Names.{sub_eq, file_eq};
ghost use Rattle.nn_base.specs.declared.sub.Sub.{Sub as S};
ghost use Rattle.nn_base.specs.declared.file_name.FileName.{FileName as N};
ghost use Rattle.nn_host.specs.Listing.{IsRead};
ghost use Rattle.nn_memhost.specs.Content.{Content, synced_content, grown, shown_of};
ghost use Rattle.nn_memhost.specs.Stop.{stopped_content};
ghost use Rattle.nn_memhost.specs.Kept.{content_of, placed_of, fits, content_at};

use crate::kept::file::KeptFile;
use crate::stop::Keep;
use nn_base::{FileName, NoMemory, Sub};
use std::alloc::Global;

pub fn same_sub(a: Sub, b: Sub) -> bool
    ensures { result ≡ sub_eq a b }
{
    a == b
}

pub fn same_name(a: &FileName, b: &FileName) -> bool
    ensures { result ≡ file_eq a.now b.now }
{
    *a == *b
}

fn is_at(file: &KeptFile, sub: Sub, name: &FileName) -> bool
    ensures { result ≡ fits sub name.now (placed_of file.now) }
{
    same_sub(sub, file.sub) && same_name(name, &file.name)
}

// Where the file of this name stands, or how many there are.
fn place_of(files: &[KeptFile], sub: Sub, name: &FileName) -> usize
    ensures { result ≡ position_or_len (fits sub name.now) (map placed_of files.now) }
{
    for (k, file) in files.iter().enumerate() {
        if is_at(file, sub, name) {
            return k;
        }
    }
    files.len()
}

/// Whether the file of this name is there.
pub fn has(files: &[KeptFile], sub: Sub, name: &FileName) -> bool
    ensures { result ≡ is_some (content_at files.now sub name.now) }
{
    for file in files {
        if is_at(file, sub, name) {
            return true;
        }
    }
    false
}

/// How many bytes the file of this name has; 0 where it isn't there.
pub fn size(files: &[KeptFile], sub: Sub, name: &FileName) -> u64
    ensures { result ≡ length (shown_of (content_at files.now sub name.now)) }
{
    for file in files {
        if is_at(file, sub, name) {
            return file.bytes.len() as u64;
        }
    }
    0
}

/// Reads the bytes of the file of this name from `at` on, and says how many.
pub fn read_at(files: &[KeptFile], sub: Sub, name: &FileName, at: u64, out: &mut [u8]) -> usize
    ensures within { result ≤ length out.old }
    ensures value { IsRead (option_map (λ (c : Content). c.bytes) (content_at files.now sub name.now)) at result out.old out.new }
{
    let k = place_of(files, sub, name);
    if k >= files.len() {
        return 0;
    }
    let file = &files[k];
    copy_from(&file.bytes, at, out)
}

/// Copies bytes from `at` on to the front of `out`, and says how many.
pub fn copy_from(bytes: &[u8], at: u64, out: &mut [u8]) -> usize
    ensures within { result ≤ length out.old }
    ensures value { IsRead (Some bytes.now) at result out.old out.new }
{
    let Ok(at) = usize::try_from(at) else {
        return 0;
    };
    if at >= bytes.len() {
        return 0;
    }
    let rest = &bytes[at..];
    let n = rest.len().min(out.len());
    out[..n].copy_from_slice(&rest[..n]);
    n
}

/// Puts this file in the place of the one of its name, or behind the others.
pub fn put(files: &mut Vec<KeptFile>, file: KeptFile) -> Result<(), NoMemory>
    ensures ok { OnOk result ((q : S) (m : N) → content_at files.new.items q m ≡ (if sub_eq q file.sub && file_eq m file.name then Some (content_of file) else content_at files.old.items q m)) }
    ensures err { OnErr result (files.new.items ≡ files.old.items) }
{
    let k = place_of(files, file.sub, &file.name);
    if k < files.len() {
        let slot = &mut files[k];
        *slot = file;
        return Ok(());
    }
    files.push(file)?;
    Ok(())
}

/// Hands bytes to the file of this name, of which the first are written.
pub fn grow(
    files: &mut Vec<KeptFile>,
    sub: Sub,
    name: &FileName,
    bytes: &[u8],
    written: usize,
) -> Result<(), NoMemory>
    requires { written ≤ length bytes.now }
    ensures ok { OnOk result ((q : S) (m : N) → content_at files.new.items q m ≡ (if sub_eq q sub && file_eq m name.now then option_map (grown written bytes.now) (content_at files.old.items sub name.now) else content_at files.old.items q m)) }
    ensures err { OnErr result ((q : S) (m : N) → content_at files.new.items q m ≡ content_at files.old.items q m) }
{
    let k = place_of(files, sub, name);
    if k < files.len() {
        let file = &mut files[k];
        return file.grow(bytes, written);
    }
    Ok(())
}

/// Makes the bytes of the file of this name last.
pub fn sync(files: &mut Vec<KeptFile>, sub: Sub, name: &FileName)
    ensures { (q : S) (m : N) → content_at files.new.items q m ≡ (if sub_eq q sub && file_eq m name.now then option_map synced_content (content_at files.old.items sub name.now) else content_at files.old.items q m) }
{
    let k = place_of(files, sub, name);
    if k < files.len() {
        let file = &mut files[k];
        file.sync();
    }
}

/// Makes the bytes of all files last.
pub fn sync_all(files: &mut Vec<KeptFile>)
    ensures { (q : S) (m : N) → content_at files.new.items q m ≡ option_map synced_content (content_at files.old.items q m) }
{
    'files: for k in 0..files.len() {
        let file = &mut files[k];
        file.sync();
    }
}

/// Takes the file of this name away.
pub fn remove(files: &mut Vec<KeptFile>, sub: Sub, name: &FileName)
    ensures { (q : S) (m : N) → content_at files.new.items q m ≡ (if sub_eq q sub && file_eq m name.now then None else content_at files.old.items q m) }
{
    files.retain(|file| !is_at(file, sub, name));
}

/// Takes all files of this subfolder away.
pub fn remove_all(files: &mut Vec<KeptFile>, sub: Sub)
    ensures { (q : S) (m : N) → content_at files.new.items q m ≡ (if sub_eq q sub then None else content_at files.old.items q m) }
{
    files.retain(|file| !same_sub(sub, file.sub));
}

// Gives the file this name, if it has the other one.
fn relabel(file: &mut KeptFile, sub: Sub, from: &FileName, to: &FileName)
    ensures { placed_of file.new ≡ (if fits sub from.now (placed_of file.old) then record (placed_of file.old) { name = to.now } else placed_of file.old) }
{
    if is_at(file, sub, from) {
        file.name = *to;
    }
}

// Gives the file this subfolder, if it is in the other one.
fn transfer(file: &mut KeptFile, from: Sub, to: Sub)
    ensures { placed_of file.new ≡ (if sub_eq from file.old.sub then record (placed_of file.old) { sub = to } else placed_of file.old) }
{
    if same_sub(from, file.sub) {
        file.sub = to;
    }
}

/// Gives the file of one name another one, which no file has.
pub fn rename(files: &mut Vec<KeptFile>, sub: Sub, from: &FileName, to: &FileName)
    requires { content_at files.old.items sub to.now ≡ None }
    ensures { (q : S) (m : N) → content_at files.new.items q m ≡ (if sub_eq q sub && file_eq m to.now then content_at files.old.items sub from.now else if sub_eq q sub && file_eq m from.now then None else content_at files.old.items q m) }
{
    'files: for k in 0..files.len() {
        let file = &mut files[k];
        relabel(file, sub, from, to);
    }
}

/// Gives all files of one subfolder to another one, which has none.
pub fn move_all(files: &mut Vec<KeptFile>, from: Sub, to: Sub)
    requires { (n : N) → content_at files.old.items to n ≡ None }
    ensures { (q : S) (m : N) → content_at files.new.items q m ≡ (if sub_eq q to then content_at files.old.items from m else if sub_eq q from then None else content_at files.old.items q m) }
{
    'files: for k in 0..files.len() {
        let file = &mut files[k];
        transfer(file, from, to);
    }
}

/// A copy of these files.
pub fn copy_all(alloc: Global, files: &[KeptFile]) -> Result<Vec<KeptFile>, NoMemory>
    ensures { IfOk result (λ copies. (q : S) (m : N) → content_at copies.items q m ≡ content_at files.now q m) }
{
    let mut copies = Vec::with_capacity(alloc, files.len())?;
    'files: for file in files {
        copies.push(file.copy_of(alloc)?)?;
    }
    Ok(copies)
}

/// Copies of what a stop leaves of these files.
pub fn stopped(alloc: Global, files: &[KeptFile], keep: Keep) -> Result<Vec<KeptFile>, NoMemory>
    ensures { IfOk result (λ left. (q : S) (m : N) → content_at left.items q m ≡ option_map (stopped_content keep) (content_at files.now q m)) }
{
    let mut left = Vec::with_capacity(alloc, files.len())?;
    'files: for file in files {
        left.push(file.stopped(alloc, keep)?)?;
    }
    Ok(left)
}
