// The names of a subfolder's files, in the order of their texts.
ghost use Rattle.std.specs.Prelude.{◌≡◌, ◌<◌, ◌^◌, [], List, ℕ, OnOk, IfOk, map};
ghost use Rattle.std.specs.BTreeMap.{IsOrdered};
ghost use Rattle.nn_base.specs.FileText.{IsInRange, text_of};
ghost use Rattle.nn_memhost.specs.Kept.{placed_of};
ghost use Rattle.nn_memhost.specs.Names.{AreSpelled, AllThere, AreListed, IsAdded, text_cmp};

use crate::kept::file::KeptFile;
use crate::kept::files::same_sub;
use nn_base::{FileName, NoMemory, Sub, Txid};
use std::alloc::Global;
use std::collections::BTreeMap;

fn look_at_id(id: &Txid)
    ensures { id.now < 2 ^ 63 }
{
    let _number = id.0;
}

// The ids of a name are in range, as their types say.
fn look_at(name: &FileName)
    ensures { IsInRange name.now }
{
    match name {
        FileName::Version => {}
        FileName::VersionTmp => {}
        FileName::Seen => {}
        FileName::SeenTmp => {}
        FileName::Image(id) => look_at_id(id),
        FileName::Md5(id) => look_at_id(id),
        FileName::Md5Tmp(id) => look_at_id(id),
        FileName::Ckpt(id) => look_at_id(id),
        FileName::Edits(span) => look_at_id(&span.last),
        FileName::InProgress(first) => look_at_id(&first.0),
    }
}

fn spelled(alloc: Global, name: &FileName) -> Result<Vec<u8>, NoMemory>
    ensures { IfOk result (λ text. text.items ≡ text_of name.now) }
{
    let mut text = Vec::new(alloc);
    name.text(&mut text)?;
    Ok(text)
}

// Puts a name among the others, by its text.
fn add(
    alloc: Global,
    names: &mut BTreeMap<Vec<u8>, FileName>,
    name: &FileName,
) -> Result<(), NoMemory>
    ensures { OnOk result (IsAdded name.now names.old names.new) }
{
    look_at(name);
    let text = spelled(alloc, name)?;
    // No other name has this text.
    let read = FileName::parse(&text);
    prove!(read.is_some());
    names.insert(text, *name)?;
    Ok(())
}

// The names by their texts.
fn by_text(
    alloc: Global,
    files: &[KeptFile],
    sub: Sub,
) -> Result<BTreeMap<Vec<u8>, FileName>, NoMemory>
    ensures spelled { IfOk result (λ names. AreSpelled (map placed_of files.now) sub names.entries) }
    ensures all { IfOk result (λ names. AllThere (map placed_of files.now) sub names.entries) }
    ensures ordered { IfOk result (λ names. IsOrdered text_cmp names) }
{
    let mut names = BTreeMap::new(alloc);
    'files: for file in files {
        if same_sub(sub, file.sub) {
            add(alloc, &mut names, &file.name)?;
        }
    }
    Ok(names)
}

/// The names of this subfolder's files, in the order of their texts.
pub fn names_in(alloc: Global, files: &[KeptFile], sub: Sub) -> Result<Vec<FileName>, NoMemory>
    ensures { IfOk result (λ names. AreListed (map placed_of files.now) sub names.items) }
{
    let ordered = by_text(alloc, files, sub)?;
    let mut names = Vec::with_capacity(alloc, ordered.len())?;
    'names: for name in ordered.values() {
        names.push(*name)?;
    }
    Ok(names)
}
