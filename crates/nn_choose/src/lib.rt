//! The choice among several directories: what they open to for a start, or the first refusal of their table. Looking for it
//! changes nothing.
//! It knows nothing of what is done with the directories then.
#![tactic(auto)]

mod best;
mod choosing;
mod clashes;
pub mod laws;
mod leading;
mod loading;
mod marks;
mod picking;
mod served;
mod states;
mod versions;

pub use picking::{Picked, pick};
