//! The tests of the namespace, its quotas and its commands, and of the lines of a script, through their public calls.
//! It has no items but tests, so that none of those crates is proved once more for its tests.
#![tactic(auto)]

#[cfg(test)]
mod ops;
#[cfg(test)]
mod quota;
#[cfg(test)]
mod script;
#[cfg(test)]
mod tree;
