// Where the records of a segment file end.
ghost use Rattle.std.specs.Prelude.{◌≡◌, ◌<◌, ◌≤◌, OnOk, IfOk, IfSome};
ghost use Rattle.nn_base.specs.declared.sub.Sub.TheVariants.{Current};
ghost use Rattle.nn_host.specs.Moments.{disk_at};
ghost use Rattle.nn_host.specs.Runs.{OnlyAt};
ghost use Rattle.nn_chain.specs.Folder.{folder_at};
ghost use Rattle.nn_remake.specs.Counts.{IsCountedBy};
ghost use Rattle.nn_tidy.specs.Fates.{ReadTo};

use nn_base::limits::MOST_SEGMENT_READ;
use nn_base::{DirNo, FileName, Sub, Txid};
use nn_host::Host;
use nn_marks::Version;
use nn_remake::MakeFault;
use nn_segment::intact_run;
use nn_small::{ReadAll, read_all};
use std::alloc::Global;

/// The id of the last record in the intact run of the file. There is none where the file is absent or longer than is read.
pub(crate) fn last_of<H: Host>(
    alloc: Global,
    host: &mut H,
    i: DirNo,
    name: FileName,
    first: Txid,
    version: &Version,
) -> Result<Option<Txid>, MakeFault>
    requires below { i.0 < (H.state host.old).count }
    ensures ok { H.told → IfOk result (λ last. ReadTo (folder_at ((H.state host.old).reads i.0) Current) version.now.layout name first last) }
    ensures within { IfOk result (λ last. IfSome last (λ id. first ≤ id)) }
    ensures kept { H.told → OnOk result ((H.state host.new).reads i.0 ≡ (H.state host.old).reads i.0) }
    ensures any_moment { OnlyAt H.told i.0 (H.state host.old) (H.state host.new) (λ d. d ≡ disk_at (H.state host.old) i.0) }
    ensures cause { IsCountedBy i.0 (H.state host.old) (H.state host.new) result }
{
    match read_all(alloc, host, i, Sub::Current, name, MOST_SEGMENT_READ as u64) {
        Ok(bytes) => Ok(intact_run(alloc, &bytes, version.layout, first)?.last),
        Err(ReadAll::Absent) => Ok(None),
        Err(ReadAll::TooLarge(_)) => Ok(None),
        Err(ReadAll::Failed) => Err(MakeFault::Failed),
        Err(ReadAll::Memory) => Err(MakeFault::Memory),
    }
}
