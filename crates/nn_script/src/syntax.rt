// Why a line says no command.
ghost use Rattle.std.specs.Prelude.{◌≡◌};

use nn_base::{OutOfMemory, PathFault};
use thiserror::Error;

/// The first thing that is wrong with a line. The order: `Long`, `Byte`, `Words` for an empty word,
/// `Unknown`, `Words` for another number of arguments, and then the arguments from left to right.
#[derive(Clone, Copy, Debug, PartialEq, Eq, Error)]
pub enum Syntax {
    /// The line has more than 65,535 bytes.
    #[error("long")]
    Long,
    /// A byte is neither a space nor one that ASCII prints.
    #[error("byte")]
    Byte,
    /// A space stands at an end of the line or beside another, or the command has another number
    /// of arguments.
    #[error("words")]
    Words,
    /// The first word names no command.
    #[error("unknown")]
    Unknown,
    /// A number isn't 1 to 19 digits that write less than 2^63.
    #[error("number")]
    Number,
    /// A mode isn't 1 to 4 octal digits that write at most 1777.
    #[error("mode")]
    Mode,
    /// A `%` has no two hex digits with small letters behind it.
    #[error("escape")]
    Escape,
    /// An owner or a group has more than 32 bytes.
    #[error("name")]
    Name,
    /// A path is none, for a cause that is never its want of memory.
    #[error("path {0}")]
    Path(PathFault),
    /// There was no memory for the path, which says nothing of the line.
    #[error("no memory")]
    Memory,
}

impl<M: OutOfMemory + Drop> From<M> for Syntax {
    ghost use Rattle.nn_script.specs.declared.syntax.Syntax.TheVariants.{Memory};

    ghost from_gives = { λ _ fault. fault ≡ Memory };

    fn from(_: M) -> Syntax {
        Syntax::Memory
    }
}
