// Why name directories weren't opened.
use crate::Refusal;
use nn_base::DirNo;

/// Why name directories weren't formatted or opened.
#[derive(Clone, Copy, Debug, PartialEq, Eq)]
pub enum OpenFault {
    /// They are refused as they are, and nothing was changed.
    Refused(Refusal),
    /// A call on this directory failed.
    Failed(DirNo),
    /// Memory ran out.
    Memory,
}
