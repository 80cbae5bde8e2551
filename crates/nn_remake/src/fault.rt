// Why an image wasn't published, or a directory not made.
use nn_base::NoMemory;
use nn_host::Failed;

/// Why an image wasn't published, or a directory not made.
#[derive(Clone, Copy, Debug, PartialEq, Eq)]
pub enum MakeFault {
    /// A call on the directory failed.
    Failed,
    /// There was no memory; no call failed.
    Memory,
}

impl From<Failed> for MakeFault {
    ghost use Rattle.std.specs.Prelude.{◌≡◌};
    ghost use Rattle.nn_remake.specs.declared.fault.MakeFault.TheVariants.{Failed};

    ghost from_gives = { λ _ fault. fault ≡ Failed };

    fn from(_: Failed) -> MakeFault {
        MakeFault::Failed
    }
}

impl From<NoMemory> for MakeFault {
    ghost use Rattle.std.specs.Prelude.{◌≡◌};
    ghost use Rattle.nn_remake.specs.declared.fault.MakeFault.TheVariants.{Memory};

    ghost from_gives = { λ _ fault. fault ≡ Memory };

    fn from(_: NoMemory) -> MakeFault {
        MakeFault::Memory
    }
}
