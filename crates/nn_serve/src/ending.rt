// How a run over directories ends.
ghost use Rattle.std.specs.Prelude.{◌≡◌};
ghost use Rattle.nn_serve.specs.Ended.{run_status, unstarted, run_end};

use nn_base::DirNo;
use nn_core::End;
use nn_pick::{OpenFault, Refusal};
use nn_server::Status;

/// How a run over directories ends.
#[derive(Clone, Copy, Debug, PartialEq, Eq)]
pub enum RunEnd {
    /// All lines were answered, and the last segment was ended in each live directory.
    Ended,
    /// The directories don't open, by this refusal. Nothing that reads was changed, and nothing was said.
    Refused(Refusal),
    /// A call on this directory failed before the run had started. Nothing was said.
    HostFault(DirNo),
    /// A call on each directory has failed since the run started, or since a line last took it back.
    NoneLeft,
    /// A call of the source failed. The lines that were read whole by then were answered.
    SourceFault,
    /// The script has more than 2^26 bytes. The lines that end within them were answered.
    ScriptTooLong,
    /// Memory ran out: before the run had started; over a command of which nothing was written yet; over a checkpoint or a
    /// directory that was to be taken back, which was not answered (`Core::step` tells which); or over the count of generated
    /// lines, when all of them are done.
    Memory,
    /// The output failed: nothing more was said.
    OutFault,
}

impl RunEnd {
    /// The status of a run of the program that ends so.
    pub fn status(self) -> Status
        ensures { result ≡ run_status self }
    {
        match self {
            RunEnd::Ended => Status::Stopped,
            RunEnd::Refused(refusal) => Status::Refused(refusal),
            RunEnd::HostFault(i) => Status::HostFault(i),
            RunEnd::NoneLeft => Status::NoneLeft,
            RunEnd::SourceFault => Status::SourceFault,
            RunEnd::ScriptTooLong => Status::ScriptTooLong,
            RunEnd::Memory => Status::Memory,
            RunEnd::OutFault => Status::OutFault,
        }
    }
}

// How a run ends that didn't start.
pub(crate) fn unstarted(fault: OpenFault) -> RunEnd
    ensures { result ≡ unstarted fault }
{
    match fault {
        OpenFault::Refused(refusal) => RunEnd::Refused(refusal),
        OpenFault::Failed(i) => RunEnd::HostFault(i),
        OpenFault::Memory => RunEnd::Memory,
    }
}

// How a run ends over a line.
pub(crate) fn run_end(end: End) -> RunEnd
    ensures { result ≡ run_end end }
{
    match end {
        End::NoneLeft => RunEnd::NoneLeft,
        End::Memory => RunEnd::Memory,
        End::OutFault => RunEnd::OutFault,
    }
}
