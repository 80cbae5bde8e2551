// Why no field was read.
use thiserror::Error;

/// What is wrong with a field: of several faults the first from the left, and of a key the fault of its varint before
/// that of what it says.
#[derive(Clone, Copy, Debug, PartialEq, Eq, Error)]
pub enum WireFault {
    /// The bytes end before the field does.
    #[error("the bytes end early")]
    Short,
    /// The number is 0 or above 2^29 - 1, or the kind is neither 0 nor 2.
    #[error("the key has no such number or kind")]
    BadKey,
    /// A varint has a needless last byte of 0, or is above 2^64 - 1, as one of ten bytes that all say that another
    /// follows would be.
    #[error("the varint is not in its one form")]
    NotCanonical,
}
