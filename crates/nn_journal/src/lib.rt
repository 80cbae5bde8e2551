//! The journal over name directories: each record is synced in every live one before anything is answered, and a
//! directory that fails is dropped and ends strictly below each live one.
//! It knows nothing of the namespace that the records change, nor of images.
#![tactic(auto)]

mod among;
mod journal;
pub mod laws;
mod opened;
mod rounds;

pub use journal::{JournalSet, NoneLeft};
pub use opened::Opened;
