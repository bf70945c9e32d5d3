//! What holds of all conditions.
ghost use Rattle.ottl_print.specs.Laws as spec;

/// A condition that parses prints as text that parses to the same.
pub fn prints_as_itself()
    ensures reads_back { spec.PrintsAsItself }
{}

/// A condition that parses is a tree at most 600 deep, so that asking it takes little stack.
pub fn is_not_deep()
    ensures at_most_600 { spec.IsNotDeep }
{}
