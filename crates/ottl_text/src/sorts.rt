//! Which expressions may stand where.
ghost use Rattle.std.specs.Prelude.{◌≡◌};
ghost use Rattle.ottl_text.specs.Grammar.{misplaced};
ghost use Rattle.ottl_text.specs.Syntax as spec;

use crate::expression::{Binary, Expression, Literal, Unary};
use crate::fault::FaultKind;

impl Binary {
    /// Whether it makes a condition and no value.
    fn is_connective(self) -> bool
        ensures { result ≡ spec.is_connective self }
    {
        matches!(
            self,
            Binary::Or
                | Binary::And
                | Binary::Equal
                | Binary::NotEqual
                | Binary::Less
                | Binary::AtMost
                | Binary::Greater
                | Binary::AtLeast
        )
    }

    fn is_arithmetic(self) -> bool
        ensures { result ≡ spec.is_arithmetic self }
    {
        matches!(
            self,
            Binary::Add | Binary::Subtract | Binary::Multiply | Binary::Divide
        )
    }

    /// Whether it may take the expression.
    pub(crate) fn suits(self, expression: &Expression) -> bool
        ensures { result ≡ spec.suits self (spec.term_of expression.now) }
    {
        match self {
            Binary::Or | Binary::And => expression.is_condition(),
            Binary::Add | Binary::Subtract | Binary::Multiply | Binary::Divide => {
                expression.is_number()
            }
            _ => expression.is_value(),
        }
    }

    /// What is wrong where it may not.
    pub(crate) fn misplaced(self) -> FaultKind
        ensures { result ≡ misplaced self }
    {
        match self {
            Binary::Or | Binary::And => FaultKind::NotACondition,
            Binary::Add | Binary::Subtract | Binary::Multiply | Binary::Divide => {
                FaultKind::NotANumber
            }
            _ => FaultKind::NotAValue,
        }
    }
}

impl Expression {
    /// Whether it may stand alone, beside `and` and `or` and behind `not`.
    pub(crate) fn is_condition(&self) -> bool
        ensures { result ≡ spec.is_condition (spec.term_of self.now) }
    {
        match self {
            Expression::Literal(literal) => matches!(literal, Literal::Bool(_)),
            Expression::Path(_) => false,
            Expression::Binary(binary, _, _) => !binary.is_arithmetic(),
            _ => true,
        }
    }

    /// Whether it may be compared, and given to a function.
    pub(crate) fn is_value(&self) -> bool
        ensures { result ≡ spec.is_value (spec.term_of self.now) }
    {
        match self {
            Expression::Unary(unary, _) => *unary != Unary::Not,
            Expression::Binary(binary, _, _) => !binary.is_connective(),
            _ => true,
        }
    }

    /// Whether it may be added, subtracted, multiplied and divided.
    fn is_number(&self) -> bool
        ensures { result ≡ spec.is_number (spec.term_of self.now) }
    {
        match self {
            Expression::Literal(literal) => {
                matches!(literal, Literal::Int(_) | Literal::Float(_))
            }
            _ => self.is_value(),
        }
    }
}
