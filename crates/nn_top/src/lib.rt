//! The top call of the program: what the words of a command line ask for, the command that does it, and the last line of its
//! status. It knows neither how a command is done, nor real folders.
#![tactic(auto)]

mod exit;
pub mod laws;
mod run;
mod words;

pub use exit::{Exit, exit_code};
pub use nn_server::Status;
pub use run::namenode;
pub use words::{Command, WordsFault, command_of, dirs_of};
