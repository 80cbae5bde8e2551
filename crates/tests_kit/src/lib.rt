//! What the tests of folders share: texts of a folder's files that were made outside the program, directories that are filled
//! with them, looks at what a directory holds, and loops over stops and failed calls. It has no tests, and only crates of tests stand on it.
#![tactic(auto)]

mod filling;
mod finding;
mod looking;
pub mod texts;
mod trying;

pub use filling::{File, file, give, give_all};
pub use finding::found_at;
pub use looking::{contents, has, has_sub, lacks, lists};
pub use trying::{first_bad_failure, first_bad_stop};
