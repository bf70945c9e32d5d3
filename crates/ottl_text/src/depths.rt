//! How deep a tree is.
ghost use Rattle.std.specs.Prelude.{◌≡◌, ◌+◌, nat_le, max};
ghost use Rattle.ottl_text.specs.Syntax.{depth, term_of};

use crate::expression::Expression;

impl Expression {
    /// Whether it is at most so deep. It looks no deeper.
    #[tactic(auto, using(crate::proofs::Within::one_within, crate::proofs::Within::two_within, crate::proofs::Within::three_within))]
    fn is_within(&self, most: usize) -> bool
        ensures { result ≡ nat_le (depth (term_of self.now)) most }
    {
        if most == 0 {
            return false;
        }
        let below = most - 1;
        match self {
            Expression::Literal(_) | Expression::Path(_) | Expression::IsRootSpan => true,
            Expression::Unary(_, of) => of.is_within(below),
            Expression::IsMatch(of, _) => of.is_within(below),
            Expression::Cased(_, of) => of.is_within(below),
            Expression::Binary(_, left, right) => {
                left.is_within(below) && right.is_within(below)
            }
            Expression::Concat(first, _, others) => {
                first.is_within(below) && others.is_within(below)
            }
            Expression::Substring(text, start, size) => {
                text.is_within(below) && start.is_within(below) && size.is_within(below)
            }
        }
    }
}

/// Whether a tree of two is at most so deep.
#[tactic(auto, using(crate::proofs::Within::two_within))]
pub(crate) fn both_within(most: usize, left: &Expression, right: &Expression) -> bool
    ensures { result ≡ nat_le (max (depth (term_of left.now)) (depth (term_of right.now)) + 1) most }
{
    if most == 0 {
        return false;
    }
    left.is_within(most - 1) && right.is_within(most - 1)
}
