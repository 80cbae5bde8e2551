// What follows from the definitions alone, for the proofs of the crates above: no call does anything here.
ghost use Rattle.nn_chain.specs.Chain.{BareChain};
ghost use Rattle.nn_chain.specs.Fair.{CutShortIsFair, WholeIsFair};
ghost use Rattle.nn_chain.specs.Laws.{OneChain, OneWhy, NoneIntactUnsound, OneReason, NoReasonBesideIntact};

/// A folder has at most one chain: two begin at the same image, go over the same records, and end at the same id and
/// namespace.
pub fn one_chain()
    ensures { OneChain }
{}

/// At most one thing is wrong with an image first.
#[tactic(auto, using(crate::proofs::LawLemmas::one_thing_wrong))]
pub fn one_why()
    ensures { OneWhy }
{}

/// With an intact image nothing is wrong.
#[tactic(auto, using(crate::proofs::LawLemmas::none_intact_unsound))]
pub fn none_intact_unsound()
    ensures { NoneIntactUnsound }
{}

/// A folder has at most one reason why no image of it is intact.
pub fn one_reason()
    ensures { OneReason }
{}

/// A folder that has an intact image has no such reason.
pub fn no_reason_beside_an_intact_image()
    ensures { NoReasonBesideIntact }
{}

/// A folder without segments, whose last image is intact, has the chain that ends with that image.
#[tactic(auto, using(crate::proofs::BareLemmas::bare_chain))]
pub fn a_last_image_alone_is_a_chain()
    ensures { BareChain }
{}

/// What reads where each call returned is fair.
#[tactic(auto, using(crate::proofs::FairLemmas::whole_is_fair))]
pub fn whole_files_are_fair()
    ensures { WholeIsFair }
{}

/// A stop that only cuts files short is fair: torn bytes are what fairness is about.
#[tactic(auto, using(crate::proofs::FairLemmas::cut_short_is_fair))]
pub fn files_cut_short_are_fair()
    ensures { CutShortIsFair }
{}
