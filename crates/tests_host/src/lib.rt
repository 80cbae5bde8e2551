//! The tests of the host in memory and over real folders, of small files and of storage states, through their public calls.
//! It has no items but tests, so that none of those crates is proved once more for its tests, or stands on another for them.
#![tactic(auto)]

#[cfg(test)]
mod acting;
#[cfg(test)]
mod folders;
#[cfg(test)]
mod input;
#[cfg(test)]
mod memory;
#[cfg(test)]
mod recorder;
#[cfg(test)]
mod small;
#[cfg(test)]
mod states;
#[cfg(test)]
mod syncs;
