// What a transaction does to the namespace.
use nn_base::{Label, Path};
use nn_quota::Quota;

/// A change of the namespace, as HDFS's edit log holds it: one variant for each opcode of Hadoop's `FSEditLogOpCodes` that
/// is written here. Times are in milliseconds since 1970-01-01 UTC; a mode is nine permission bits with the sticky bit
/// above them. A record that was read keeps the bounds of its fields, but may still not fit the namespace.
#[derive(Drop)]
pub enum Op {
    /// A file is made, open and without blocks (`FSEditLogOp.AddOp`).
    Add {
        /// The id of the new file.
        inode: u64,
        path: Path,
        /// How many copies of each block are wanted.
        replication: u16,
        time: u64,
        owner: Label,
        group: Label,
        mode: u16,
    },
    /// A file or a directory gets another path (`RenameOldOp`).
    RenameOld {
        from: Path,
        to: Path,
        time: u64,
    },
    /// A file, or a directory with all below it, is removed (`DeleteOp`).
    Delete {
        path: Path,
        time: u64,
    },
    /// A directory is made (`MkdirOp`).
    Mkdir {
        /// The id of the new directory.
        inode: u64,
        path: Path,
        time: u64,
        owner: Label,
        group: Label,
        mode: u16,
    },
    /// A file gets another number of copies (`SetReplicationOp`).
    SetReplication {
        path: Path,
        replication: u16,
    },
    /// A file or a directory gets another mode (`SetPermissionsOp`).
    SetPermissions {
        path: Path,
        mode: u16,
    },
    /// A file or a directory gets another owner and group (`SetOwnerOp`).
    SetOwner {
        path: Path,
        owner: Label,
        group: Label,
    },
    /// A file that was open is complete (`CloseOp`).
    Close {
        path: Path,
        time: u64,
    },
    /// A directory gets other bounds, where `None` takes one away (`SetQuotaOp`).
    SetQuota {
        path: Path,
        quota: Quota,
    },
    /// A segment's last record, which changes nothing (`LogSegmentOp`).
    EndLogSegment,
    /// A segment's first record, which changes nothing (`LogSegmentOp`).
    StartLogSegment,
    /// A file gets one more block (`AddBlockOp`).
    AddBlock {
        path: Path,
        /// The id of the new block.
        id: u64,
        /// The generation stamp of the new block.
        stamp: u64,
        /// How many bytes the new block has.
        length: u64,
    },
}
