//! A script that is made from a number: `generate` gives exactly the lines of one file of it, and `say_script` says all of it.
//! It knows nothing of the words that ask for it, nor of what answers its lines.
#![tactic(auto)]

mod file;
mod said;

pub use file::{MAX_FILE, MOST_FILES, generate};
pub use said::{GenerateEnd, say_script};
