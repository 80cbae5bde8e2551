//! The host over real folders and the real output, with which folder each call syncs, and the source over standard input.
//! Both tell nothing but their counts of faults, and know nothing of what the bytes mean. What the system refuses they tell a person,
//! on the standard error.
#![tactic(auto)]

mod changes;
mod doing;
mod host;
mod listing;
mod looks;
mod paths;
mod reserved;
mod segment;
mod source;

pub use host::FileHost;
pub use reserved::Reserved;
pub use source::StdSource;
