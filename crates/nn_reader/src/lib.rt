//! Reads a script line by line from a source: its lines are exactly those of the bytes that were taken, and at most one byte
//! more is taken than a script may have. It knows nothing of what a line asks for, nor of who answers it.
#![tactic(auto)]

mod reader;

pub use reader::{LineReader, Next};
