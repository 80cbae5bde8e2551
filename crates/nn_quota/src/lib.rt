//! Usage and quotas of a directory, and the rule that joins them: `fits` says exactly whether what is added stays within a quota.
//! It knows nothing of paths, nodes or trees.
#![tactic(auto)]

mod quota;

pub use quota::{Quota, Usage, fits};
