//! Tidying a directory: what no longer counts beside the image of an id goes, and a segment in progress gets its last name.
//! Whoever begins a segment behind that id may rely on there being no other record. It knows nothing of why the image is
//! there, nor of several directories.
#![tactic(auto)]

mod fate;
mod last;
mod plan;
mod steps;
mod tidying;

pub use tidying::tidy;
