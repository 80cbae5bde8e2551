//! A whole run over directories, from its opening to its last line: what each moment of it keeps, what it has said and seen, and
//! to what done work opens. It is laws over the definitions of a run and no code, and knows nothing of how a step is done.
#![tactic(auto)]

pub mod laws;
