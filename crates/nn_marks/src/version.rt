// What a VERSION file says.
ghost use Rattle.std.specs.Prelude.{◌<◌, ◌≤◌, IsTrue, ◌^◌, pos, negsuc, ◌<ℤ◌, ◌≤ℤ◌};
ghost use Rattle.nn_base.specs.Words.{is_word};

use nn_base::Word;

/// What a VERSION file says of the folder that it stands in. The storage type isn't here, since it is always `NAME_NODE`.
#[derive(Clone, Copy, Debug, PartialEq, Eq)]
pub struct Version {
    /// `namespaceID`: which namespace, 1 to 2147483647
    pub namespace: u32,
    /// `clusterID`: which cluster
    pub cluster: Word,
    /// `cTime`: when the layout was last changed, in milliseconds below 2^63, and 0 for a new namespace
    pub ctime: u64,
    /// `blockpoolID`: which block pool
    pub blockpool: Word,
    /// `layoutVersion`: the layout of images and segments, -1 to -2147483647
    pub layout: i32,
    pub ghost some_namespace: { 1 ≤ namespace },
    pub ghost namespace_fits: { namespace ≤ 2147483647 },
    pub ghost cluster_is_word: { IsTrue (is_word cluster) },
    pub ghost ctime_fits: { ctime < 2 ^ 63 },
    pub ghost blockpool_is_word: { IsTrue (is_word blockpool) },
    pub ghost layout_is_negative: { layout <ℤ pos 0 },
    pub ghost layout_fits: { negsuc 2147483646 ≤ℤ layout },
}
