//! A start: its directories are brought together and tidied, and a journal is begun over them.
//! It says nothing, and serves nobody.
#![tactic(auto)]

mod beginning;
mod starting;

pub use beginning::begin;
pub use starting::start;
