// How a whole run exits.
ghost use Rattle.std.specs.Prelude.{◌≡◌, Some, length};
ghost use Rattle.nn_server.specs.Codes.{code_of};
ghost use Rattle.nn_top.specs.Words.{texts};
ghost use Rattle.nn_top.specs.Wanted.{dirs_in};
ghost use Rattle.nn_top.specs.Commands.{wanted_by, HaveNoReading};
ghost use Rattle.nn_top.specs.Did.{Did, Unread};

use crate::run::namenode;
use nn_host::{Host, Source};
use nn_server::Status;
use std::alloc::Global;

/// How the process is to exit.
#[derive(Clone, Copy, Debug, PartialEq, Eq)]
pub struct Exit {
    /// The code by which it exits.
    pub code: u8,
    /// The status that the run ended with.
    pub status: Status,
}

/// Does what `namenode` does, and gives the code by which the process is to exit: that of the status that the run ended with.
///
/// Where the words have a reading, the host has as many directories as that reading, in its order.
pub fn exit_code<H: Host, S: Source>(
    alloc: Global,
    words: &[String],
    source: &mut S,
    host: &mut H,
) -> Exit
    requires { (wanted : _) → wanted_by (texts words.now) ≡ Some wanted → (H.state host.old).count ≡ length (dirs_in wanted) }
    ensures code { result.code ≡ code_of result.status }
    ensures usage { HaveNoReading (texts words.now) → (source.new ≡ source.old) × Unread H.told (H.state host.old) (H.state host.new) result.status }
    ensures did { (wanted : _) → wanted_by (texts words.now) ≡ Some wanted → Did H.told S.told S.left S.faults wanted source.old source.new (H.state host.old) (H.state host.new) result.status }
{
    let status = namenode(alloc, words, source, host);
    let ended = status;
    Exit {
        code: status.code(),
        status: ended,
    }
}
