//! The law of kept directories: what a run keeps of each name directory by itself, and that every choice of them with one
//! of the run is sound and opens to what the run promised. It knows nothing of calls: it follows from the definitions.
#![tactic(auto)]

pub mod laws;
