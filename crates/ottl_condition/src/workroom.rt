//! What a condition is asked with.
ghost use Rattle.std.specs.Prelude.{◌≡◌, IfOk, IfSome};
ghost use Rattle.ottl_text.specs.Syntax.{term_of};
ghost use Rattle.ottl_condition.specs.Meaning.{texts_made};
ghost use Rattle.ottl_condition.specs.Workrooms.{Serves};

use crate::searching::searches_for;
use expression::Searches;
use ottl_made_texts::{TextRoom, rooms_for};
use ottl_text::Expression;
use std::alloc::{AllocError, Global};

/// What a condition is asked with: searches for its regular expressions, and room for the texts that it makes.
#[derive(Drop)]
pub struct Workroom {
    pub(crate) searches: Searches,
    pub(crate) rooms: Vec<TextRoom>,
}

/// What a condition is asked with. It takes no memory for one that has no regular expression and makes no text. `Err` where memory
/// was refused, or a text is no regular expression (`expression::check` tells which).
pub fn workroom_for(alloc: Global, condition: &Expression) -> Result<Workroom, AllocError>
    ensures { IfOk result (λ workroom. Serves workroom (term_of condition.now)) }
{
    let Some(texts) = texts_made(condition) else {
        return Err(AllocError);
    };
    // Reserved with the condition, so that to ask it takes no memory (D-340).
    let rooms = rooms_for(alloc, texts)?;
    let searches = searches_for(alloc, condition)?;
    Ok(Workroom { searches, rooms })
}

/// How many texts an expression makes at most. `None` where no number of 64 bits is that one.
fn texts_made(expression: &Expression) -> Option<usize>
    ensures { IfSome result (λ texts. texts ≡ texts_made (term_of expression.now)) }
{
    match expression {
        Expression::Literal(_) | Expression::Path(_) | Expression::IsRootSpan => Some(0),
        Expression::Unary(_, of) | Expression::IsMatch(of, _) => texts_made(of),
        Expression::Binary(_, left, right) => texts_made(left)?.checked_add(texts_made(right)?),
        Expression::Substring(of, start, size) => texts_made(of)?
            .checked_add(texts_made(start)?)?
            .checked_add(texts_made(size)?),
        Expression::Cased(_, of) => texts_made(of)?.checked_add(1),
        Expression::Concat(first, _, others) => texts_made(first)?
            .checked_add(texts_made(others)?)?
            .checked_add(1),
    }
}
