// What a run goes on by, and what ends it.
use nn_script::{ScriptCommand, Syntax};

/// What a run goes on by.
#[derive(Drop)]
pub enum Event {
    /// A line that asks for this
    Line(ScriptCommand),
    /// A line without a reading, by the first thing that is wrong with it, which is never want of memory
    Bad(Syntax),
}

/// Why a run ends at an event.
#[derive(Clone, Copy, Debug, PartialEq, Eq)]
pub enum End {
    /// A call on each live directory failed. Nothing was answered.
    NoneLeft,
    /// Memory ran out, and nothing was answered: over a command before anything was written, or over a checkpoint or a directory
    /// that was to be taken back, after which the directories are as after a stop.
    Memory,
    /// The output failed over the answer.
    OutFault,
}
