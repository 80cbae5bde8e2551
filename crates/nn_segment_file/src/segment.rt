// The segment in progress of one directory.
ghost use Rattle.std.specs.Prelude.{◌≡◌, ◌+◌, ◌<◌, ◌≤◌, true, Some, None, OnOk};
ghost use Rattle.nn_host.specs.Disk.{certain};
ghost use Rattle.nn_host.specs.Moments.{disk_at, moment};
ghost use Rattle.nn_host.specs.Calls.{IsCounted};
ghost use Rattle.nn_host.specs.Runs.{OnlyAt};
ghost use Rattle.nn_marks.specs.Seen.{seen_text_of};
ghost use Rattle.nn_base.specs.declared.sub.Sub.TheVariants.{Current};
ghost use Rattle.nn_base.specs.declared.file_name.FileName.TheVariants.{Seen, SeenTmp};
ghost use Rattle.nn_small.specs.Small.{OldOrNew};
ghost use Rattle.nn_small.specs.Failure.{EndsByFailure};
ghost use Rattle.nn_segment_file.specs.Log.{Beside};
ghost use Rattle.nn_segment_file.specs.Steps.{WritesAtAnyMoment, HasWritten, StartsAtAnyMoment, StartsInTurn, HasStarted, EndsAtAnyMoment, EndsInTurn, HasEnded};
ghost use Rattle.nn_segment_file.specs.Stages.{Touched};
ghost use Rattle.nn_segment_file.specs.declared.step.Step.TheVariants.{Start, Write, End};

use nn_base::{DirNo, FileName, FirstTxid, Span, Sub, Txid};
use nn_host::{Failed, Host};
use nn_marks::seen_text;
use nn_small::write_small;

/// Puts these bytes behind those of the segment in progress, and makes them last.
pub fn write_records<H: Host>(
    host: &mut H,
    i: DirNo,
    first: FirstTxid,
    bytes: &[u8],
) -> Result<(), Failed>
    requires below { i.0 < (H.state host.old).count }
    ensures ok { H.told → HasWritten i.0 first bytes.now (H.state host.old) (H.state host.new) result }
    ensures any_moment { WritesAtAnyMoment H.told i.0 first bytes.now (H.state host.old) (H.state host.new) }
    ensures beside { OnlyAt H.told i.0 (H.state host.old) (H.state host.new) (Beside (Touched Write first) (disk_at (H.state host.old) i.0)) }
    ensures still { EndsByFailure H.told i.0 (H.state host.old) (H.state host.new) }
    ensures calls { H.told → moment (H.state host.new) ≤ moment (H.state host.old) + 2 }
    ensures cause { IsCounted i.0 (H.state host.old) (H.state host.new) result }
{
    host.append(i, Sub::Current, FileName::InProgress(first), bytes)?;
    host.sync(i, Sub::Current, FileName::InProgress(first))
}

/// Begins a segment with these bytes, and writes its first id into `seen_txid`.
pub fn begin_segment<H: Host>(
    host: &mut H,
    i: DirNo,
    first: FirstTxid,
    bytes: &[u8],
) -> Result<(), Failed>
    requires below { i.0 < (H.state host.old).count }
    ensures ok { H.told → HasStarted i.0 first bytes.now (H.state host.old) (H.state host.new) result }
    ensures any_moment { StartsAtAnyMoment H.told i.0 first bytes.now (H.state host.old) (H.state host.new) }
    ensures in_turn { StartsInTurn H.told i.0 first bytes.now (H.state host.old) (H.state host.new) }
    ensures beside { OnlyAt H.told i.0 (H.state host.old) (H.state host.new) (Beside (Touched Start first) (disk_at (H.state host.old) i.0)) }
    ensures still { EndsByFailure H.told i.0 (H.state host.old) (H.state host.new) }
    ensures calls { H.told → moment (H.state host.new) ≤ moment (H.state host.old) + 7 }
    ensures cause { IsCounted i.0 (H.state host.old) (H.state host.new) result }
{
    host.make_file(i, Sub::Current, FileName::InProgress(first))?;
    write_records(host, i, first, bytes)?;

    // Only now: an id in `seen_txid` says that its segment is there.
    write_seen(host, i, first.0)
}

fn write_seen<H: Host>(host: &mut H, i: DirNo, id: Txid) -> Result<(), Failed>
    requires below { i.0 < (H.state host.old).count }
    ensures ok { H.told → (disk_at (H.state host.old) i.0).has Current ≡ true → OnOk result (((disk_at (H.state host.new) i.0).file Current Seen ≡ certain (Some (seen_text_of id))) × ((disk_at (H.state host.new) i.0).file Current SeenTmp ≡ None)) }
    ensures any_moment { OnlyAt H.told i.0 (H.state host.old) (H.state host.new) (OldOrNew Current SeenTmp Seen (seen_text_of id) (disk_at (H.state host.old) i.0)) }
    ensures still { EndsByFailure H.told i.0 (H.state host.old) (H.state host.new) }
    ensures calls { H.told → moment (H.state host.new) ≤ moment (H.state host.old) + 4 }
    ensures cause { IsCounted i.0 (H.state host.old) (H.state host.new) result }
{
    let mut digits = [0; 20];
    let len = seen_text(id, &mut digits);
    write_small(
        host,
        i,
        Sub::Current,
        FileName::SeenTmp,
        FileName::Seen,
        &digits[..len],
    )
}

/// Ends the segment in progress with these bytes, so that its last id is `last`, and gives it its last name.
pub fn end_segment<H: Host>(
    host: &mut H,
    i: DirNo,
    first: FirstTxid,
    last: Txid,
    bytes: &[u8],
) -> Result<(), Failed>
    requires below { i.0 < (H.state host.old).count }
    requires order { first ≤ last }
    ensures ok { H.told → HasEnded i.0 first last bytes.now (H.state host.old) (H.state host.new) result }
    ensures any_moment { EndsAtAnyMoment H.told i.0 first last bytes.now (H.state host.old) (H.state host.new) }
    ensures in_turn { EndsInTurn H.told i.0 first last bytes.now (H.state host.old) (H.state host.new) }
    ensures beside { OnlyAt H.told i.0 (H.state host.old) (H.state host.new) (Beside (Touched (End last) first) (disk_at (H.state host.old) i.0)) }
    ensures still { EndsByFailure H.told i.0 (H.state host.old) (H.state host.new) }
    ensures calls { H.told → moment (H.state host.new) ≤ moment (H.state host.old) + 3 }
    ensures cause { IsCounted i.0 (H.state host.old) (H.state host.new) result }
{
    // The name says that all its records are whole, so they last before it gets it.
    write_records(host, i, first, bytes)?;
    let name = FileName::Edits(Span {
        first: first.0,
        last,
    });
    host.rename_file(i, Sub::Current, FileName::InProgress(first), name)
}
