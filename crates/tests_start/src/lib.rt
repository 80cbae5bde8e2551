//! Tests of a start, and of the directories that it brings together, through the public calls of `nn_start` and `nn_begin`,
//! over a host in memory. It has no items but tests.
#![tactic(auto)]

#[cfg(test)]
mod given;
#[cfg(test)]
mod starting;
#[cfg(test)]
mod together;
