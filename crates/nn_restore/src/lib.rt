//! A dropped directory that is taken back by a run: recovered, cleared, made with the image of the run's namespace, and written to from
//! then on as the others are. It promises that at each moment the live directories open to the one namespace, and that the one taken
//! back alone does once it is live. It knows nothing of lines, nor of what is said.
#![tactic(auto)]

mod emptying;
mod restoring;

pub use restoring::{Restored, restore};
