// Why a command isn't taken.
ghost use Rattle.std.specs.Prelude.{◌≡◌};

use nn_base::OutOfMemory;

/// Why a command isn't taken. Each command makes its tests in an order of its own, and the first that applies is told.
#[derive(Clone, Copy, Debug, PartialEq, Eq)]
pub enum OpRefusal {
    /// There is something at the path already.
    Exists,
    /// There is nothing at the path, or at a path above it.
    NotFound,
    /// A file stands above the path, or where a directory is needed.
    NotDir,
    /// A directory stands where a file is needed.
    IsDir,
    /// A node would move below itself.
    Under,
    /// The root is neither removed nor moved, and nothing moves to it.
    Root,
    /// The file isn't open.
    Closed,
    /// A quota of a directory above would be exceeded.
    Quota,
    /// A bound of the whole namespace, of a file, of a path or of a number would be passed.
    Limit,
    /// Memory ran out. It has no other cause.
    Memory,
}

impl<M: OutOfMemory + Drop> From<M> for OpRefusal {
    ghost use Rattle.nn_ops.specs.declared.refusal.OpRefusal.TheVariants.{Memory};

    ghost from_gives = { λ _ refusal. refusal ≡ Memory };

    fn from(_: M) -> OpRefusal {
        OpRefusal::Memory
    }
}
