//! What a run over directories says and keeps: which Books its directories may open to by what was said, which directories are
//! of the run by their counts, and how steps make a run. It is laws and no code, and knows nothing of how a step is done.
#![tactic(auto)]

pub mod laws;
