//! What each durable step on a name directory keeps: the making, publishing, recovery and clearing of one directory, at each
//! moment of it, in the words of the law of kept directories. It knows nothing of how a step is done, nor of several
//! directories: it leads from what the step's contract says to what a run has to keep.
#![tactic(auto)]

pub mod laws;
