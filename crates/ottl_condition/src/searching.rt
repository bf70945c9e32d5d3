//! What searches for the regular expressions of conditions.
ghost use Rattle.std.specs.Prelude.{◌≡◌, ◌++◌, true, IfOk, OnOk};
ghost use Rattle.expression.specs.Expressions.{are_known};
ghost use Rattle.ottl_text.specs.Syntax.{term_of};
ghost use Rattle.ottl_condition.specs.Meaning.{patterns_of};

use expression::Searches;
use otlp_types::{List, Text, TryClone};
use ottl_text::Expression;
use std::alloc::{AllocError, Global};

/// What searches for the regular expressions of a condition. `Err` where memory was refused, or a text is no regular
/// expression (`expression::check` tells which).
pub(crate) fn searches_for(alloc: Global, condition: &Expression) -> Result<Searches, AllocError>
    ensures { IfOk result (λ searches. are_known searches (patterns_of (term_of condition.now)) ≡ true) }
{
    let mut patterns = List::new(alloc);
    put_patterns(alloc, condition, &mut patterns)?;
    let mut searches = Searches::new(alloc);
    for pattern in patterns.as_slice() {
        searches.add(alloc, pattern.as_str())?;
    }
    Ok(searches)
}

/// Puts the texts of the regular expressions of an expression last.
pub fn put_patterns(
    alloc: Global,
    expression: &Expression,
    found: &mut List<Text>,
) -> Result<(), AllocError>
    ensures { OnOk result (found.new ≡ found.old ++ patterns_of (term_of expression.now)) }
{
    match expression {
        Expression::Unary(_, of) | Expression::Cased(_, of) => put_patterns(alloc, of, found),
        Expression::Binary(_, left, right) | Expression::Concat(left, _, right) => {
            put_patterns(alloc, left, found)?;
            put_patterns(alloc, right, found)?;
            Ok(())
        }
        Expression::IsMatch(of, pattern) => {
            put_patterns(alloc, of, found)?;
            found.push(pattern.try_clone(alloc)?)?;
            Ok(())
        }
        Expression::Substring(of, start, size) => {
            put_patterns(alloc, of, found)?;
            put_patterns(alloc, start, found)?;
            put_patterns(alloc, size, found)?;
            Ok(())
        }
        Expression::Literal(_) | Expression::Path(_) | Expression::IsRootSpan => Ok(()),
    }
}
