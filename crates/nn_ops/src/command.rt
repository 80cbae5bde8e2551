// What a client asks of the namespace.
use nn_base::{Label, Path};
use nn_quota::Quota;

/// A command that changes the namespace, as HDFS's `ClientProtocol` has it.
#[derive(Drop)]
pub enum Command {
    /// Makes one directory with the mode 755 (`mkdirs`, but for one level)
    Mkdir {
        path: Path,
    },
    /// Makes an empty open file with the mode 644 (`create`).
    Create {
        path: Path,
        /// How many replicas of each block there should be; the limit is 512.
        replication: u64,
    },
    /// Adds a block to an open file, whole at once (`addBlock`).
    AddBlock {
        path: Path,
        /// Its bytes; the limit is 2^40.
        length: u64,
    },
    /// Closes an open file (`complete`).
    Close {
        path: Path,
    },
    /// Removes a node and all below it (`delete`, recursive).
    Delete {
        path: Path,
    },
    /// Moves a node, with all below it, to another path (`rename`, without its way of moving into a directory that is there).
    Rename {
        from: Path,
        to: Path,
    },
    /// Sets a mode (`setPermission`).
    Chmod {
        path: Path,
        /// Permission bits, at most 1777 (octal).
        mode: u16,
    },
    /// Sets both the owner and the group (`setOwner`).
    Chown {
        path: Path,
        owner: Label,
        group: Label,
    },
    /// Sets both quotas of a directory (`setQuota`), each below 2^63; a quota that is exceeded already is set too.
    SetQuota {
        path: Path,
        quota: Quota,
    },
    /// Sets the replication of a file (`setReplication`).
    Setrep {
        path: Path,
        /// How many replicas of each block there should be; the limit is 512.
        replication: u64,
    },
}
