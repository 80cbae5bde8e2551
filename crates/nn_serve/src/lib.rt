//! A whole run over directories: it starts, answers the lines of a script one after another, or does those of generated files
//! and says how many there were, and ends its last segment. It promises what was said, which counts rose, and that at each moment every choice of directories with one of the run opens to
//! the Book after the lines that were answered, or after one more. It knows nothing of the words of a command line, nor of the
//! last line of a status.
#![tactic(auto)]

mod ending;
mod filling;
mod serving;
mod tally;
mod whole_run;

pub use ending::RunEnd;
pub use whole_run::{run, run_generated};
