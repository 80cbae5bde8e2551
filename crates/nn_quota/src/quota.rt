// The rule of quotas.
ghost use Rattle.std.specs.Prelude.{◌≡◌};
ghost use Rattle.nn_quota.specs.Quotas.{is_fit, is_within};

/// What stands at and below a place of the namespace.
#[derive(Clone, Copy, Debug, PartialEq, Eq)]
pub struct Usage {
    /// How many names there are, the place itself counted.
    pub names: u64,
    /// How many bytes the files among them take: for each its replication times the sum of its block lengths. 64 bits may be too few for a sum over files.
    pub space: u128,
}

/// The bounds of a directory, as HDFS's `setQuota` sets them. `None` stands for no bound.
#[derive(Clone, Copy, Debug, PartialEq, Eq)]
pub struct Quota {
    /// The most names at and below the directory, itself counted.
    pub names: Option<u64>,
    /// The most bytes, replicas counted, of the files below.
    pub space: Option<u64>,
}

/// Whether a count may grow under its bound. The sum is never formed, since it may have more than 128 bits.
fn may_grow(used: u128, more: u128, quota: Option<u64>) -> bool
    ensures { result ≡ is_within used more quota }
{
    match quota {
        None => true,
        Some(quota) => {
            let quota = u128::from(quota);
            more == 0 || (used <= quota && more <= quota - used)
        }
    }
}

/// Whether a directory with this usage may take what is added, under its quota. What doesn't grow isn't checked, so a quota that is exceeded already hinders only what adds to it (HDFS Quotas Guide, `DirectoryWithQuotaFeature.verifyQuota`).
pub fn fits(usage: Usage, delta: Usage, quota: Quota) -> bool
    ensures { result ≡ is_fit usage delta quota }
{
    may_grow(
        u128::from(usage.names),
        u128::from(delta.names),
        quota.names,
    ) && may_grow(usage.space, delta.space, quota.space)
}
