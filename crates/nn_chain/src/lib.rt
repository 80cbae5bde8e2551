//! The chain of a folder: its newest intact image, and the records of its segments that are replayed over it, up to the first that is missing or doesn't fit.
//! It knows nothing of which folder serves, nor of several directories.
#![tactic(auto)]

mod image;
pub mod laws;
mod why;

pub use image::{ReadImage, read_image};
pub use why::ImageWhy;
