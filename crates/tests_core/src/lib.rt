//! Tests of the events of a run over several directories, through the public calls of `nn_core`, over a host in memory.
#![tactic(auto)]

#[cfg(test)]
mod events;
#[cfg(test)]
mod restoring;
#[cfg(test)]
mod run;
