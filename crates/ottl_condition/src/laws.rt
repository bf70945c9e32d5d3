//! What holds of all conditions, on each span and each event.
ghost use Rattle.ottl_condition.specs.Laws as spec;

/// `and`, `or` and `not` by what their parts say: an error of the first part is one of the whole, and an error of the
/// second one only where the first doesn't decide.
pub fn connectives_are_of_their_parts()
    ensures and { spec.AndIsOfBoth }
    ensures or { spec.OrIsOfBoth }
    ensures not { spec.NotIsOfOne }
{}

/// Twice `not` says what the condition says; De Morgan's laws. Both hold of errors too.
pub fn not_goes_inside()
    ensures twice { spec.NotTwiceIsNothing }
    ensures and { spec.NotAndIsOrOfNots }
    ensures or { spec.NotOrIsAndOfNots }
{}
