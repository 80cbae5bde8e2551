//! Segments of the edit log: the header that says their layout, and the intact run, which is the longest list of records with consecutive ids that follows it.
//! It knows nothing of files or their names, nor of the namespace that the records change.
#![tactic(auto)]

mod header;
mod run;

pub use header::{header_put, records_in};
pub use run::{Run, intact_run, next_record};
