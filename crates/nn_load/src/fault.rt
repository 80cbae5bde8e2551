// Why a folder wasn't loaded.
ghost use Rattle.std.specs.Prelude.{◌≡◌};
ghost use Rattle.nn_load.specs.Loading.{unlisted};

use nn_base::NoMemory;
use nn_chain::ImageWhy;
use nn_host::{Failed, ListFault};

/// Why a folder wasn't loaded.
#[derive(Clone, Copy, Debug, PartialEq, Eq)]
pub enum ChainFault {
    /// A call of the host failed.
    Failed,
    /// It has no intact image: this is wrong with the one of greatest id.
    NoImage(ImageWhy),
    /// There was no memory. An image that met it isn't passed over: it may be intact.
    Memory,
}

impl From<Failed> for ChainFault {
    ghost use Rattle.nn_load.specs.declared.fault.ChainFault.TheVariants.{Failed};

    ghost from_gives = { λ _ fault. fault ≡ Failed };

    fn from(_: Failed) -> ChainFault {
        ChainFault::Failed
    }
}

impl From<ListFault> for ChainFault {
    ghost from_gives = { λ listed fault. fault ≡ unlisted listed };

    fn from(listed: ListFault) -> ChainFault {
        match listed {
            ListFault::Failed => ChainFault::Failed,
            ListFault::Memory => ChainFault::Memory,
        }
    }
}

impl From<NoMemory> for ChainFault {
    ghost use Rattle.nn_load.specs.declared.fault.ChainFault.TheVariants.{Memory};

    ghost from_gives = { λ _ fault. fault ≡ Memory };

    fn from(_: NoMemory) -> ChainFault {
        ChainFault::Memory
    }
}
