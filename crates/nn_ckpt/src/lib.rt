//! A checkpoint of a run: the image of its namespace in each live directory, and the older images and segments that go then. It
//! promises that at each moment each live directory opens to the one namespace, and that one in which a call fails falls behind.
//! It knows nothing of lines, nor of what is said.
#![tactic(auto)]

mod checkpointing;
mod dropping;
mod fault;
pub mod laws;
mod publishing;
mod purging;
mod retention;

pub use checkpointing::checkpoint;
pub use fault::RunFault;
pub use purging::purge;
