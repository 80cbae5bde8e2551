// What can be wrong with a VERSION file.
use crate::Key;
use thiserror::Error;

/// The first thing that is wrong with a VERSION file. The order: its length, its bytes, then line by line, then key by key.
#[derive(Clone, Copy, Debug, PartialEq, Eq, Error)]
pub enum VersionFault {
    /// There is no such file. Reading the bytes of one never gives this.
    #[error("no VERSION file")]
    NoFile,
    /// It has more than 65,536 bytes.
    #[error("VERSION has more than 65536 bytes")]
    TooLong,
    /// It has a byte other than a tab, a newline, a carriage return and those from 0x20 to 0x7E.
    #[error("VERSION is no text")]
    NotText,
    /// The line of this number, from 1, has no `=`, though it is neither empty nor a comment.
    #[error("line {0} of VERSION has no key")]
    BadLine(u32),
    /// Two lines give this key.
    #[error("VERSION gives {0} twice")]
    Twice(Key),
    /// No line gives this key.
    #[error("VERSION has no {0}")]
    Missing(Key),
    /// The value of this key is no number of 1 to 19 digits, or is out of its range.
    #[error("VERSION has no number for {0}")]
    BadNumber(Key),
    /// The value of this key is no word of 1 to 255 bytes from 0x21 to 0x7E, or isn't the one word that it may be.
    #[error("VERSION has no word for {0}")]
    BadWord(Key),
    /// Memory ran out.
    #[error("no memory")]
    Memory,
}
