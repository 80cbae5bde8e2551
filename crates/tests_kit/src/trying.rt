// Tests of what is left of each call: where a stop came inside it, and where it failed.
use crate::texts::{KEEPS, PARTS};
use nn_memhost::{Choice, MemHost, Part};

/// The first of the host's calls inside which a stop leaves what doesn't pass. Each choice of what a stop keeps is tried.
pub fn first_bad_stop<F: FnMut(&mut MemHost) -> bool>(host: &MemHost, mut passes: F) -> Option<u64>
    requires { F.IsAlwaysCallable passes }
{
    for k in 0..host.calls() {
        for done in [false, true] {
            for keep in KEEPS {
                match host.stopped_at(k, Choice { done, keep }) {
                    Ok(mut left) => {
                        if !passes(&mut left) {
                            return Some(k);
                        }
                    }
                    Err(_) => return Some(k),
                }
            }
        }
    }
    None
}

/// The first call, of those from `from` up to `to`, whose failure doesn't pass. Each part that it may have done is tried.
pub fn first_bad_failure<F: FnMut(u64, Part) -> bool>(
    from: u64,
    to: u64,
    mut passes: F,
) -> Option<u64>
    requires { F.IsAlwaysCallable passes }
{
    for k in from..to {
        for part in PARTS {
            if !passes(k, part) {
                return Some(k);
            }
        }
    }
    None
}
