// What follows from the definitions alone, for the proofs of the crates above: no call does anything here.
ghost use Rattle.nn_marks.specs.VersionText.{FaultlessSays};

/// Each VERSION text without a fault is the text of a Version.
pub fn faultless_says()
    ensures { FaultlessSays }
{}
