// What directories are opened for.

/// What name directories are opened for, since that decides what refuses.
#[derive(Clone, Copy, Debug, PartialEq, Eq)]
pub enum Intent {
    /// To go on from where they are.
    Start,
    /// To save their namespace and go on under a new cTime.
    Upgrade,
    /// To go back to the namespace that was saved.
    Rollback,
}
