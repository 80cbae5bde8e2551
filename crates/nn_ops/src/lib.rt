//! The commands on a namespace: `prepare` says whether a command is taken, refusing exactly as its tests do in their order, and gives a plan with the body for the edit log; `apply` does the plan and takes no memory.
//! It knows nothing of how records are spelled, of scripts or of disks.
#![tactic(auto)]

mod answers;
mod attributes;
mod command;
mod delete;
mod effects;
mod file;
mod new_node;
mod places;
mod plan;
mod refusal;
mod rename;
mod replayed;
mod room;
mod work;

pub use answers::prepare;
pub use command::Command;
pub use effects::apply;
pub use plan::Plan;
pub use refusal::OpRefusal;
pub use replayed::{Clash, replay};
