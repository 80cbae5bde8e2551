//! Names with numbers: each gets the next one, from 1, at its first use, and keeps it.
//! It knows nothing of what a name stands for, nor of how a table of names is spelled.
#![tactic(auto)]

mod names;

pub use names::Names;
