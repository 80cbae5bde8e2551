// What a reader answers where it reads nothing.
/// Why nothing was read.
#[derive(Clone, Copy)]
pub(crate) enum Unread {
    /// The bytes begin with no record.
    NoRecord,
    /// Memory ran out.
    Memory,
}
