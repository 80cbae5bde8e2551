// What an opening of several directories gives.
use crate::journal::JournalSet;
use nn_base::Txid;
use nn_marks::Version;
use nn_state::Bay;

/// What an opening gives to the run that follows (HDFS's `FSNamesystem` once `FSImage` is loaded and its edit log is
/// open for write).
#[derive(Drop)]
pub struct Opened<T> {
    /// One state for each directory.
    pub bay: Bay,
    /// The journal over them, with a segment in progress.
    pub journal: JournalSet,
    /// The namespace, a tree of it.
    pub tree: T,
    /// What their `VERSION` says.
    pub version: Version,
    /// The id of the last record that the namespace has.
    pub last: Txid,
}
