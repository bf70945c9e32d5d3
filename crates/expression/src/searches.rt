//! What searches for the expressions of some policies.
ghost use Rattle.std.specs.Prelude.{◌≡◌, true, [], ◌∷◌, ◌++◌, OnOk, OnErr};
ghost use Rattle.expression.specs.Expressions.{is_known, is_match};

use crate::expression::Expression;
use std::alloc::{AllocError, Global};
use std::marker::Model;

/// Expressions with what searches for them, which contracts see as their texts.
#[derive(Drop)]
pub struct Searches {
    items: Vec<Expression>,
}

impl Model for Searches {
    ghost use Rattle.std.specs.Prelude.{ℕ, List};

    ghost Value = { List (List ℕ) };

    ghost view = { λ it. it.items.items };
}

impl Searches {
    /// For no expressions. It takes no memory.
    pub fn new(alloc: Global) -> Searches
        ensures { result ≡ [] }
    {
        Searches {
            items: Vec::new(alloc),
        }
    }

    /// Puts an expression last. `Err` where memory was refused, or the text is none that `check` lets pass.
    pub fn add(&mut self, alloc: Global, text: &str) -> Result<(), AllocError>
        ensures ok { OnOk result (self.new ≡ self.old ++ text.now ∷ []) }
        ensures err { OnErr result (self.new ≡ self.old) }
    {
        match Expression::new(alloc, text) {
            Ok(expression) => {
                self.items.push(expression)?;
                Ok(())
            }
            Err(_) => Err(AllocError),
        }
    }

    /// Whether the expression of this text, which is among these, has a match in the value. It takes no memory
    /// that can be refused: what the search keeps of earlier ones grows as it goes.
    pub fn finds(&mut self, text: &str, value: &str) -> bool
        requires known { is_known self.old text.now ≡ true }
        ensures found { result ≡ is_match text.now value.now }
        ensures same { self.new ≡ self.old }
    {
        for place in 0..self.items.len() {
            if self.items[place].as_str() == text {
                return self.items[place].is_match(value);
            }
        }
        unreachable!()
    }
}
