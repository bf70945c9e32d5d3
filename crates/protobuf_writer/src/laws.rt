//! What is written is read as that.
ghost use Rattle.protobuf_writer.specs.Laws.{NumbersAreRead, FieldsAreRead};

/// A number that was written is read, with any bytes behind it.
#[tactic(auto, using(crate::proofs::Reading::number_is_read))]
pub fn numbers_are_read()
    ensures { NumbersAreRead }
{}

/// The fields of a message that was written are those, where each has room in its wire type.
#[tactic(auto, using(crate::proofs::Reading::fields_are_read))]
pub fn fields_are_read()
    ensures { FieldsAreRead }
{}
