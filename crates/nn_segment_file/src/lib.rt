//! The segment in progress of one name directory: it is begun, records are written behind it, and it is ended. What each
//! of these leaves at each moment is told by where the directory's chain ends after a stop.
//! It knows nothing of other directories, nor of what the records do.
#![tactic(auto)]

mod segment;
mod step;

pub use step::{Step, step_at};
