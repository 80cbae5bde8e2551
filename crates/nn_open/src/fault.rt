// Which directory failed.
use nn_base::DirNo;
use nn_pick::OpenFault;

/// A call on this directory failed.
#[derive(Clone, Copy, Debug, PartialEq, Eq)]
pub struct FailedAt(pub DirNo);

impl From<FailedAt> for OpenFault {
    ghost use Rattle.std.specs.Prelude.{◌≡◌};
    ghost use Rattle.nn_pick.specs.declared.fault.OpenFault.TheVariants.{Failed};

    ghost from_gives = { λ at fault. fault ≡ Failed at.0 };

    fn from(at: FailedAt) -> OpenFault {
        OpenFault::Failed(at.0)
    }
}
