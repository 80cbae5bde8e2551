//! Tests of directories that are tidied, through the public call of `nn_tidy`, over a host in memory.
#![tactic(auto)]

#[cfg(test)]
mod folder;
#[cfg(test)]
mod tidying;
