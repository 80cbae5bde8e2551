// The files of a subfolder.
mod parse;
mod text;

use crate::{FirstTxid, Span, Txid};

/// A file of a subfolder, by what its name says. The forms are those of Hadoop's `NNStorage.NameNodeFile`.
#[derive(Clone, Copy, Debug, PartialEq, Eq)]
pub enum FileName {
    /// `VERSION`: which cluster and which layout the folder belongs to
    Version,
    /// `VERSION.tmp`: a VERSION that is being written
    VersionTmp,
    /// `seen_txid`: an id that the journal has reached
    Seen,
    /// `seen_txid.tmp`: a `seen_txid` that is being written
    SeenTmp,
    /// `fsimage_N`: the namespace as of the transaction N
    Image(Txid),
    /// `fsimage_N.md5`: the digest of that image
    Md5(Txid),
    /// `fsimage_N.md5.tmp`: a digest that is being written
    Md5Tmp(Txid),
    /// `fsimage.ckpt_N`: an image that is being written
    Ckpt(Txid),
    /// `edits_S-E`: a finalized segment
    Edits(Span),
    /// `edits_inprogress_S`: the segment that is being written
    InProgress(FirstTxid),
}
