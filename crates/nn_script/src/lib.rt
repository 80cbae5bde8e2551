//! The lines of a script: `line_read` gives exactly the command that a line says, or the first thing
//! that is wrong with it, and what is answered is spelled exactly.
//! It knows nothing of where lines come from, of what carries commands out, or of where answers go.
#![tactic(auto)]

mod answer;
mod append;
mod argument;
mod command;
mod dirs;
mod escape;
mod line;
mod listing;
mod syntax;
mod verb;
mod words;

pub use answer::{Answer, MAX_ANSWER, Unrestored};
pub use command::ScriptCommand;
pub use dirs::{MAX_DIR_LINE, dir_line};
pub use escape::escapes_read_back;
pub use line::line_read;
pub use listing::{MAX_PART, block_line, name_text, node_words};
pub use syntax::Syntax;
