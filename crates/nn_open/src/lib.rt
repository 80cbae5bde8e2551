//! Formatting: a new namespace in each name directory, so that a stop at any moment leaves each of them not formatted, or one
//! that alone opens to the empty namespace. It knows nothing of journals, and says nothing.
#![tactic(auto)]

mod fault;
mod formatting;
mod make;
mod survey;

pub use formatting::format;
