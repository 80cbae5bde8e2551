// Why a checkpoint ends a run.
use nn_base::NoMemory;
use nn_journal::NoneLeft;

/// Why a checkpoint ends a run.
#[derive(Clone, Copy, Debug, PartialEq, Eq)]
pub enum RunFault {
    /// No directory is live any more.
    NoneLeft,
    /// There was no memory for an image or for a listing. The directories are as after a stop.
    Memory,
}

impl From<NoneLeft> for RunFault {
    ghost use Rattle.std.specs.Prelude.{◌≡◌};
    ghost use Rattle.nn_ckpt.specs.declared.fault.RunFault.TheVariants.{NoneLeft};

    ghost from_gives = { λ _ fault. fault ≡ NoneLeft };

    fn from(_: NoneLeft) -> RunFault {
        RunFault::NoneLeft
    }
}

impl From<NoMemory> for RunFault {
    ghost use Rattle.std.specs.Prelude.{◌≡◌};
    ghost use Rattle.nn_ckpt.specs.declared.fault.RunFault.TheVariants.{Memory};

    ghost from_gives = { λ _ fault. fault ≡ Memory };

    fn from(_: NoMemory) -> RunFault {
        RunFault::Memory
    }
}
