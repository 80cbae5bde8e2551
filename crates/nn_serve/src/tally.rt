// How many commands a run did.
ghost use Rattle.std.specs.Prelude.{◌≡◌, ◌+◌, ◌<◌, ◌≤◌, ◌^◌, if◌then◌else◌};

/// How many commands were done, and how many of them were taken.
#[derive(Clone, Copy)]
pub(crate) struct Tally {
    pub(crate) commands: u64,
    pub(crate) taken: u64,
    ghost fits: { taken ≤ commands },
}

impl Tally {
    /// None yet.
    pub(crate) fn none() -> Tally
        ensures { (result.commands ≡ 0) × (result.taken ≡ 0) }
    {
        Tally {
            commands: 0,
            taken: 0,
        }
    }

    /// With one command more, that was taken or not.
    pub(crate) fn with(self, taken: bool) -> Tally
        requires { self.commands < 2 ^ 63 }
        ensures commands { result.commands ≡ self.commands + 1 }
        ensures taken { result.taken ≡ (if taken then self.taken + 1 else self.taken) }
    {
        Tally {
            commands: self.commands + 1,
            taken: self.taken + u64::from(taken),
        }
    }
}
