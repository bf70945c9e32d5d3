//! Conditions by their texts.
ghost use Rattle.std.specs.Prelude.{◌≡◌, true, [], ◌∷◌, ◌++◌, OnOk, OnErr};
ghost use Rattle.ottl_condition.specs.Subjects.{subject_of};
ghost use Rattle.ottl_lists.specs.Texts.{is_known, said_of};

use crate::condition::Condition;
use ottl_condition::{EvalError, Subject};
use ottl_text::Context;
use std::alloc::{AllocError, Global};
use std::marker::Model;

/// Conditions that were read, which contracts see as what each is asked of and its text.
#[derive(Drop)]
pub struct Conditions {
    items: Vec<Condition>,
}

impl Model for Conditions {
    ghost use Rattle.std.specs.Prelude.{ℕ, List};
    ghost use Rattle.ottl_text.specs.declared.expression.Context.{Context};

    ghost Value = { List (Context × List ℕ) };

    ghost view = { λ it. it.items.items };
}

impl Conditions {
    /// None. It takes no memory.
    pub fn new(alloc: Global) -> Conditions
        ensures { result ≡ [] }
    {
        Conditions {
            items: Vec::new(alloc),
        }
    }

    /// Puts a condition last. `Err` where memory was refused, the text is none, or a regular expression in it is none.
    pub fn add(&mut self, alloc: Global, context: Context, text: &str) -> Result<(), AllocError>
        ensures ok { OnOk result (self.new ≡ self.old ++ (context, text.now) ∷ []) }
        ensures err { OnErr result (self.new ≡ self.old) }
    {
        let condition = Condition::new(alloc, context, text)?;
        self.items.push(condition)?;
        Ok(())
    }

    /// Whether the condition of this text, which is among these, is true of a span or of an event, or its error. It takes no
    /// memory that can be refused.
    pub fn holds(
        &mut self,
        context: Context,
        text: &str,
        subject: Subject<'_>,
    ) -> Result<bool, EvalError>
        requires known { is_known self.old context text.now ≡ true }
        ensures said { result ≡ said_of context text.now (subject_of subject.entry) }
        ensures same { self.new ≡ self.old }
    {
        for place in 0..self.items.len() {
            if self.items[place].is(context, text) {
                return self.items[place].holds(subject);
            }
        }
        unreachable!()
    }
}
