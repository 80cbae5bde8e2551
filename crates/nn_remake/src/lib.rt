//! Clearing a directory, publishing an image into `current`, and making a directory with it, so that a stop at any moment
//! leaves what was there, or the whole image under its name, or a directory that isn't formatted.
//! It knows nothing of journals, nor of several directories.
#![tactic(auto)]

mod clearing;
mod cutting;
mod fault;
mod making;
mod publishing;
mod removing;
mod staging;
mod topping;

pub use clearing::{clear, clear_dir, clear_unformatted};
pub use cutting::names_of;
pub use fault::MakeFault;
pub use making::make;
pub use publishing::{publish, replace_image};
pub use removing::remove_from_end;
pub use topping::top_up;
