//! The tests of the program, over a host and a source in memory, through public calls: whole runs of each command. It has no
//! items but tests, so that none of those crates is proved once more for its tests.
#![tactic(auto)]

#[cfg(test)]
mod runs;
#[cfg(test)]
mod scripts;
