//! Opening: what name directories open to, and why a command changes nothing: which refusal comes first, and how it is
//! said. It knows nothing of what a command would have done.
#![tactic(auto)]

mod fault;
mod intent;
pub mod laws;
mod refusal;
mod refused;

pub use fault::OpenFault;
pub use intent::Intent;
pub use refusal::{PreviousWhy, Refusal, SPENT_FROM};
pub use refused::{earlier, unformattable, unusable};
