// How a run of the program ends.
ghost use Rattle.std.specs.Prelude.{◌≡◌};
ghost use Rattle.nn_server.specs.Codes.{code_of, dry_status};

use crate::DryEnd;
use nn_base::DirNo;
use nn_pick::Refusal;

/// How a run of the program ends. Each has an exit status and a last line of its own.
#[derive(Clone, Copy, Debug, PartialEq, Eq)]
pub enum Status {
    /// The work was done, and the input read to its end.
    Ok,
    /// The same of a run over directories, whose last segment was ended.
    Stopped,
    /// The words of the command line have no reading.
    Usage,
    /// The command is refused, and nothing was changed.
    Refused(Refusal),
    /// A call on this directory failed.
    HostFault(DirNo),
    /// A run over directories has none left: on each of them a call failed.
    NoneLeft,
    /// A call of the source of the script failed.
    SourceFault,
    /// The script has more than 2^26 bytes.
    ScriptTooLong,
    /// Memory ran out.
    Memory,
    /// The output failed: nothing more is said.
    OutFault,
}

impl Status {
    /// The exit status of the program.
    pub fn code(self) -> u8
        ensures { result ≡ code_of self }
    {
        match self {
            Status::Ok | Status::Stopped => 0,
            Status::Usage => 1,
            Status::Refused(_) => 2,
            Status::HostFault(_) => 3,
            Status::NoneLeft => 4,
            Status::SourceFault => 5,
            Status::ScriptTooLong => 6,
            Status::Memory => 7,
            Status::OutFault => 8,
        }
    }
}

impl DryEnd {
    /// The status of a run of the program that ends so.
    pub fn status(self) -> Status
        ensures { result ≡ dry_status self }
    {
        match self {
            DryEnd::Done => Status::Ok,
            DryEnd::SourceFault => Status::SourceFault,
            DryEnd::ScriptTooLong => Status::ScriptTooLong,
            DryEnd::Memory => Status::Memory,
            DryEnd::OutFault => Status::OutFault,
        }
    }
}
