//! Tests of checkpoints, of what they purge, and of directories that are taken back, through the public calls of `nn_ckpt` and
//! `nn_restore`, over a host in memory.
#![tactic(auto)]

#[cfg(test)]
mod checkpoints;
#[cfg(test)]
mod restores;
#[cfg(test)]
mod run;
