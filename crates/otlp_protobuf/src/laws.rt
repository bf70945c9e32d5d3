//! Laws of the definition.
ghost use Rattle.otlp_protobuf.specs.Laws.{MergedIsFold, NothingIsMerged, MergingTurnsSuffice, RequestsConcatenate};

/// Where bytes are fields, a message with them is what these fields make of it, one after another; where they aren't, they
/// are no message.
#[tactic(auto, using(crate::proofs::Folding::merged_is_fold, crate::proofs::Folding::nothing_is_merged))]
pub fn merged_is_fold<S>()
    ensures fold { MergedIsFold S }
    ensures nothing { NothingIsMerged S }
{}

/// The definition counts its turns, but never ends for want of them.
#[tactic(auto, using(crate::proofs::Merging::turns_suffice))]
pub fn merging_turns_suffice<S>()
    ensures { MergingTurnsSuffice S }
{}

/// Two requests in a row are one request, with the spans of the first and then those of the second.
#[tactic(auto, using(crate::proofs::Parts::concatenated))]
pub fn requests_concatenate()
    ensures { RequestsConcatenate }
{}
