//! Tests of the journal over several directories, through the public calls of `nn_journal`, over a host in memory.
#![tactic(auto)]

#[cfg(test)]
mod folder;
#[cfg(test)]
mod played;
#[cfg(test)]
mod script;
