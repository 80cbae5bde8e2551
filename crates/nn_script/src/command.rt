// What a line asks for.
use nn_base::Path;
use nn_ops::Command;

/// What a line of a script asks for.
#[derive(Drop)]
pub enum ScriptCommand {
    /// A change of the namespace
    Namespace(Command),
    /// `clock T`: the time is T from here on, in milliseconds below 2^63
    Clock(u64),
    /// `list P`: a node and all below it
    List(Path),
    /// `dirs`: which directories are live
    Dirs,
    /// `roll`: the segment ends and the next begins
    Roll,
    /// `checkpoint`: the segment ends and its image is published
    Checkpoint,
    /// `finalize`: the state that an upgrade saved is given up
    Finalize,
    /// `restore I`: a dropped directory is taken back, by its number, which may be that of none
    Restore(u64),
}
