//! Tests of what folders hold and of directories that are made, through the public calls of `nn_chain`, `nn_pick`,
//! `nn_remake` and `nn_open`, over a host in memory.
#![tactic(auto)]

#[cfg(test)]
mod formatting;
#[cfg(test)]
mod reading;
#[cfg(test)]
mod refusing;
#[cfg(test)]
mod remaking;
