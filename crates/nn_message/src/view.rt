// The messages of a section as they are read: what each holds, and the bytes of what repeats in it.
use crate::message::Attributes;
use nn_base::Txid;
use nn_quota::Quota;

/// A node of INODE, `fsimage.proto`'s `INodeSection.INode`.
#[derive(Clone, Copy)]
pub struct InodeView<'a> {
    pub id: u64,
    /// Its name in its directory, empty for the root.
    pub name: &'a [u8],
    pub attributes: Attributes,
    pub kind: KindView<'a>,
}

/// What a node is.
#[derive(Clone, Copy)]
pub enum KindView<'a> {
    File {
        replication: u16,
        is_open: bool,
        /// The fields of its blocks, one after the other.
        blocks: &'a [u8],
    },
    Dir {
        quota: Quota,
    },
}

/// An entry of INODE_DIR, `INodeDirectorySection.DirEntry`.
#[derive(Clone, Copy)]
pub struct DirView<'a> {
    pub parent: u64,
    /// The ids of its children, as varints one after the other.
    pub children: &'a [u8],
}

/// The one message of NS_INFO, `NameSystemSection`.
#[derive(Clone, Copy)]
pub struct InfoView {
    pub namespace: u32,
    /// The last generation stamp given.
    pub stamp: u64,
    /// The last block id given.
    pub block: u64,
    pub txid: Txid,
}
