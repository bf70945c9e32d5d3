//! What is written is read as that.
ghost use Rattle.otlp_responses.specs.Writing.{PairIsRead, PartialSuccessIsRead};

/// A message of a number and a text has these two fields.
#[tactic(auto, using(crate::proofs::Reading::pair_is_read))]
pub fn pair_is_read()
    ensures { PairIsRead }
{}

/// A partial success has one field: the message of a number and a text.
#[tactic(auto, using(crate::proofs::Reading::partial_is_read))]
pub fn partial_success_is_read()
    ensures { PartialSuccessIsRead }
{}
