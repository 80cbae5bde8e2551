//! A start over several directories: they are settled, picked from and recovered, so that a stop at any moment leaves each choice
//! of them with a chosen one what it opened to at entry.
//! It knows nothing of journals, and says nothing.
#![tactic(auto)]

mod bringing;
mod opening;
mod publishing;
mod settling;
mod tidying;
mod together;

pub use bringing::bring_up;
pub use opening::{Aim, Recovered, open};
pub use publishing::publish_all;
pub use settling::settle_all;
pub use tidying::tidy_all;
pub use together::bring_together;
