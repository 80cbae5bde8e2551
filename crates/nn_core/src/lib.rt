//! One event of a run over directories: the record of a command is synced in each live directory before its answer is said, and
//! a directory in which a call fails falls behind, until it is taken back. It promises that at each moment every choice of directories with a live one
//! opens to the Book before the event or the one after it, and to that after it once the answer is said. It knows nothing of
//! the bytes of a script, nor of how a run begins or ends.
#![tactic(auto)]

mod event;
mod record;
mod restoring;
mod step;
mod work;

pub use event::{End, Event};
pub use step::Core;
