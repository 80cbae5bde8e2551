//! The commands of the program: each says what it did, over an ending of its own. It knows nothing of the words of a command
//! line, nor of the last line that a status has.
#![tactic(auto)]

mod dry_run;
mod format_run;
mod laws;
mod session;
mod state_run;
mod status;

pub use dry_run::{DryEnd, dry};
pub use format_run::{FormatEnd, format};
pub use laws::answers_go_out_in_pieces;
pub use state_run::{StateEnd, state};
pub use status::Status;
