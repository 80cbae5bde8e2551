// What follows from the definitions alone, for the proofs of the crates above: no call does anything here.
ghost use Rattle.nn_choose.specs.Laws.{PickedOpens};

/// Directories that were picked open to the namespace that was picked, with the one that is saved in them.
pub fn picked_opens()
    ensures { PickedOpens }
{}
