// The six keys of a VERSION file.
ghost use Rattle.std.specs.Prelude.{◌≡◌};
ghost use Rattle.nn_marks.specs.Version.{name_of};

use std::fmt;

/// A key of a VERSION file (Hadoop's `Storage` and `NNStorage`).
#[derive(Clone, Copy, Debug, PartialEq, Eq)]
pub enum Key {
    /// `namespaceID`: which namespace the folder belongs to, 1 to 2147483647
    NamespaceId,
    /// `clusterID`: which cluster
    ClusterId,
    /// `cTime`: when the layout was last changed, in milliseconds, and 0 for a new namespace
    CTime,
    /// `storageType`: always `NAME_NODE`
    StorageType,
    /// `blockpoolID`: which block pool
    BlockpoolId,
    /// `layoutVersion`: a negative number, the more so the newer
    LayoutVersion,
}

impl Key {
    /// The key as the file spells it.
    pub fn name(self) -> &'static str
        ensures { result.now ≡ name_of self }
    {
        match self {
            Key::NamespaceId => "namespaceID",
            Key::ClusterId => "clusterID",
            Key::CTime => "cTime",
            Key::StorageType => "storageType",
            Key::BlockpoolId => "blockpoolID",
            Key::LayoutVersion => "layoutVersion",
        }
    }
}

impl fmt::Display for Key {
    ghost use Rattle.std.specs.Prelude.{Some};

    ghost output = { λ key. Some (name_of key) };

    fn fmt<W: fmt::Write>(&self, f: &mut fmt::Formatter<W>) -> fmt::Result {
        f.write_str(self.name())
    }
}
