// What follows from the definitions alone, for the proofs of the crates above: no call does anything here.
ghost use Rattle.nn_pick.specs.Laws.{OneRefuses, NoneOpensRefused, OneOpens, AnImageOpensAlone, OneImageIsSound};

/// At most one refusal is the answer.
pub fn one_refuses()
    ensures { OneRefuses }
{}

/// Directories that open aren't refused.
#[tactic(auto, using(crate::proofs::LawLemmas::none_opens_refused))]
pub fn none_opens_refused()
    ensures { NoneOpensRefused }
{}

/// Directories open in at most one way, whatever they are opened for: the chosen ones, the last id, the namespace and
/// what is saved are the same.
pub fn one_opens()
    ensures { OneOpens }
{}

/// A directory whose `current` has a whole image and no record opens alone to the namespace of that image.
pub fn an_image_opens_alone()
    ensures { AnImageOpensAlone }
{}

/// Directories of which each holds one whole image and no record, or isn't formatted, are sound where one of them is
/// formatted: those that are formatted open together to the namespace of that image.
pub fn one_image_is_sound()
    ensures { OneImageIsSound }
{}
