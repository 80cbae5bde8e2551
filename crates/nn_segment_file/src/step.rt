// What is done to the segment in progress of a directory.
ghost use Rattle.std.specs.Prelude.{◌≡◌, ◌+◌, ◌<◌, ◌≤◌, OnOk};
ghost use Rattle.nn_host.specs.Moments.{disk_at, moment};
ghost use Rattle.nn_host.specs.Calls.{IsCounted};
ghost use Rattle.nn_host.specs.Runs.{OnlyAt};
ghost use Rattle.nn_small.specs.Failure.{EndsByFailure};
ghost use Rattle.nn_segment_file.specs.Log.{Beside};
ghost use Rattle.nn_segment_file.specs.Stages.{StepsAtAnyMoment, StepsInTurn, HasStepped, Touched, calls_of};

use crate::segment::{begin_segment, end_segment, write_records};
use nn_base::{DirNo, FirstTxid, Txid};
use nn_host::{Failed, Host};

/// What is done to the segment in progress of a directory, in the order of HDFS's `FileJournalManager` and
/// `EditLogFileOutputStream`.
#[derive(Clone, Copy, Debug, PartialEq, Eq)]
pub enum Step {
    /// One is begun: its file is made, its header and first records are written and synced, and `seen_txid` gets its
    /// first id.
    Start,
    /// Records go behind those that it has, and are synced.
    Write,
    /// It is ended at this id: its last records are written and synced, and it gets the name of a finalized segment.
    End(Txid),
}

/// Does a step with these bytes in one directory, to the segment whose first id this is. A call that fails ends it.
pub fn step_at<H: Host>(
    host: &mut H,
    i: DirNo,
    step: &Step,
    first: &FirstTxid,
    bytes: &[u8],
) -> Result<(), Failed>
    requires below { i.0 < (H.state host.old).count }
    requires order { (last : _) → step.now ≡ Step.End last → first.now ≤ last }
    ensures ok { H.told → HasStepped i.0 step.now first.now bytes.now (H.state host.old) (H.state host.new) result }
    ensures any_moment { StepsAtAnyMoment H.told i.0 step.now first.now bytes.now (H.state host.old) (H.state host.new) }
    ensures in_turn { StepsInTurn H.told i.0 step.now first.now bytes.now (H.state host.old) (H.state host.new) }
    ensures beside { OnlyAt H.told i.0 (H.state host.old) (H.state host.new) (Beside (Touched step.now first.now) (disk_at (H.state host.old) i.0)) }
    ensures still { EndsByFailure H.told i.0 (H.state host.old) (H.state host.new) }
    ensures calls { H.told → moment (H.state host.new) ≤ moment (H.state host.old) + calls_of step.now }
    ensures cause { IsCounted i.0 (H.state host.old) (H.state host.new) result }
{
    match *step {
        Step::Start => begin_segment(host, i, *first, bytes),
        Step::Write => write_records(host, i, *first, bytes),
        Step::End(last) => end_segment(host, i, *first, last, bytes),
    }
}
