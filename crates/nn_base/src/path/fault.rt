// Why a text is no path.
ghost use Rattle.std.specs.Prelude.{◌≡◌};

use crate::OutOfMemory;
use thiserror::Error;

/// What is wrong with the text of a path. Of several faults the first is told in the order below, but that the parts
/// between the slashes are tested from left to right, each for `BadName` and then for `LongName`.
#[derive(Clone, Copy, Debug, PartialEq, Eq, Error)]
pub enum PathFault {
    /// There is no byte.
    #[error("empty")]
    Empty,
    /// The first byte is no `/`.
    #[error("relative")]
    Relative,
    /// There are more than 8,000 bytes (HDFS's `MAX_PATH_LENGTH`).
    #[error("long-path")]
    LongPath,
    /// A part between slashes is empty, `.` or `..`, or has a `:` or a zero byte (HDFS's `DFSUtil.isValidName`).
    #[error("bad-name")]
    BadName,
    /// A part between slashes has more than 255 bytes.
    #[error("long-name")]
    LongName,
    /// There are more than 1,000 names (HDFS's `MAX_PATH_DEPTH`).
    #[error("deep")]
    Deep,
    /// There was no memory for the path, which says nothing of the text.
    #[error("no memory")]
    Memory,
}

impl<M: OutOfMemory + Drop> From<M> for PathFault {
    ghost use Rattle.nn_base.specs.declared.path.fault.PathFault.TheVariants.{Memory};

    ghost from_gives = { λ _ fault. fault ≡ Memory };

    fn from(_: M) -> PathFault {
        PathFault::Memory
    }
}
