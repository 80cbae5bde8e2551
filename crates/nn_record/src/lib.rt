//! Records of the edit log: the transactions that change the namespace, as values and as bytes. What is written is read back, whatever bytes follow it.
//! It knows nothing of segments, of files or of the namespace that a record changes.
#![tactic(auto)]

mod bodies;
mod fields;
mod numbers;
mod op;
mod opcodes;
mod reading;
mod records;
mod transaction;
mod unread;
mod writing;

pub use op::Op;
pub use transaction::Record;
