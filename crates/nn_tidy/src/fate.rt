// What becomes of a file.
ghost use Rattle.std.specs.Prelude.{◌≡◌, ◌<◌, OnOk, IfOk};
ghost use Rattle.nn_base.specs.declared.sub.Sub.TheVariants.{Current};
ghost use Rattle.nn_base.specs.declared.file_name.FileName.TheVariants.{Edits, InProgress};
ghost use Rattle.nn_host.specs.Disk.{Look};
ghost use Rattle.nn_host.specs.Moments.{disk_at};
ghost use Rattle.nn_host.specs.Calls.{Called};
ghost use Rattle.nn_host.specs.Runs.{OnlyAt};
ghost use Rattle.nn_chain.specs.Folder.{folder_at};
ghost use Rattle.nn_remake.specs.Counts.{IsCountedBy};
ghost use Rattle.nn_tidy.specs.Fates.{IsFate, IsFreeName, is_loose as is_loose_name};

use crate::last::last_of;
use nn_base::{DirNo, FileName, FirstTxid, Span, Sub, Txid};
use nn_host::{Failed, Host};
use nn_marks::Version;
use nn_remake::MakeFault;
use std::alloc::Global;

/// What becomes of a file.
#[derive(Clone, Copy)]
pub(crate) enum Fate {
    /// It stays as it is.
    Stays,
    /// It goes: it is a later image, or never got its name.
    Loose,
    /// It goes: a segment that begins later, or has a later record.
    Beyond,
    /// A segment in progress, all of which counts: it gets this name, or it goes.
    Ends(Option<FileName>),
}

/// What becomes of this file, beside the image of this id. A segment that may have a later record is read, and each in
/// progress.
pub(crate) fn fate_of<H: Host>(
    alloc: Global,
    host: &mut H,
    i: DirNo,
    name: FileName,
    id: Txid,
    version: &Version,
) -> Result<Fate, MakeFault>
    requires below { i.0 < (H.state host.old).count }
    ensures ok { H.told → IfOk result (λ fate. IsFate (folder_at ((H.state host.old).reads i.0) Current) version.now.layout id name fate) }
    ensures kept { H.told → OnOk result ((H.state host.new).reads i.0 ≡ (H.state host.old).reads i.0) }
    ensures any_moment { OnlyAt H.told i.0 (H.state host.old) (H.state host.new) (λ d. d ≡ disk_at (H.state host.old) i.0) }
    ensures cause { IsCountedBy i.0 (H.state host.old) (H.state host.new) result }
{
    match name {
        FileName::Edits(span) => fate_of_finalized(alloc, host, i, span, id, version),
        FileName::InProgress(first) => fate_in_progress(alloc, host, i, first, id, version),
        _ if is_loose(name, id) => Ok(Fate::Loose),
        _ => Ok(Fate::Stays),
    }
}

// Whether the name alone says that the file goes.
fn is_loose(name: FileName, id: Txid) -> bool
    ensures { result ≡ is_loose_name id name }
{
    match name {
        FileName::VersionTmp | FileName::SeenTmp | FileName::Md5Tmp(_) | FileName::Ckpt(_) => true,
        FileName::Image(other) => other.0 > id.0,
        _ => false,
    }
}

// A finalized segment ends at its last id, whatever follows in the file: most needn't be read.
fn fate_of_finalized<H: Host>(
    alloc: Global,
    host: &mut H,
    i: DirNo,
    span: Span,
    id: Txid,
    version: &Version,
) -> Result<Fate, MakeFault>
    requires below { i.0 < (H.state host.old).count }
    ensures ok { H.told → IfOk result (λ fate. IsFate (folder_at ((H.state host.old).reads i.0) Current) version.now.layout id (Edits span) fate) }
    ensures kept { H.told → OnOk result ((H.state host.new).reads i.0 ≡ (H.state host.old).reads i.0) }
    ensures any_moment { OnlyAt H.told i.0 (H.state host.old) (H.state host.new) (λ d. d ≡ disk_at (H.state host.old) i.0) }
    ensures cause { IsCountedBy i.0 (H.state host.old) (H.state host.new) result }
{
    if span.last.0 <= id.0 {
        return Ok(Fate::Stays);
    }
    if span.first.0 > id.0 {
        return Ok(Fate::Beyond);
    }
    match last_of(alloc, host, i, FileName::Edits(span), span.first, version)? {
        Some(last) if last.0 > id.0 => Ok(Fate::Beyond),
        Some(_) => Ok(Fate::Stays),
        None => Ok(Fate::Stays),
    }
}

fn fate_in_progress<H: Host>(
    alloc: Global,
    host: &mut H,
    i: DirNo,
    first: FirstTxid,
    id: Txid,
    version: &Version,
) -> Result<Fate, MakeFault>
    requires below { i.0 < (H.state host.old).count }
    ensures ok { H.told → IfOk result (λ fate. IsFate (folder_at ((H.state host.old).reads i.0) Current) version.now.layout id (InProgress first) fate) }
    ensures kept { H.told → OnOk result ((H.state host.new).reads i.0 ≡ (H.state host.old).reads i.0) }
    ensures any_moment { OnlyAt H.told i.0 (H.state host.old) (H.state host.new) (λ d. d ≡ disk_at (H.state host.old) i.0) }
    ensures cause { IsCountedBy i.0 (H.state host.old) (H.state host.new) result }
{
    if first.0.0 > id.0 {
        return Ok(Fate::Beyond);
    }
    match last_of(
        alloc,
        host,
        i,
        FileName::InProgress(first),
        first.0,
        version,
    )? {
        Some(last) if last.0 > id.0 => Ok(Fate::Beyond),
        Some(last) => Ok(Fate::Ends(free_name(
            host,
            i,
            Span {
                first: first.0,
                last,
            },
        )?)),
        None => Ok(Fate::Ends(None)),
    }
}

// The name of the finalized segment of these ids, if no file has it.
fn free_name<H: Host>(host: &mut H, i: DirNo, span: Span) -> Result<Option<FileName>, Failed>
    requires below { i.0 < (H.state host.old).count }
    ensures ok { H.told → IfOk result (λ to. IsFreeName (folder_at ((H.state host.old).reads i.0) Current) span to) }
    ensures call { Called H.told i.0 Look (H.state host.old) (H.state host.new) result }
{
    if host.has_file(i, Sub::Current, FileName::Edits(span))? {
        return Ok(None);
    }
    Ok(Some(FileName::Edits(span)))
}
