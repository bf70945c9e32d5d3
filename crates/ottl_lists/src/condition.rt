//! One condition by its text.
ghost use Rattle.std.specs.Prelude.{◌≡◌, IfOk};
ghost use Rattle.ottl_condition.specs.Subjects.{subject_of};
ghost use Rattle.ottl_lists.specs.Texts.{is_the, said_of};

use otlp_types::Text;
use ottl_condition::{EvalError, Subject, Workroom, evaluate, workroom_for};
use ottl_text::{Context, Expression, parse};
use std::alloc::{AllocError, Global};
use std::marker::Model;

/// A condition with what it is read as and what it is asked with, which contracts see as what it is asked of and its text.
#[derive(Drop)]
pub struct Condition {
    context: Context,
    text: Text,
    read: Expression,
    workroom: Workroom,
}

impl Model for Condition {
    ghost use Rattle.std.specs.Prelude.{◌≡◌, ℕ, List, Ok};
    ghost use Rattle.ottl_text.specs.declared.expression.Context.{Context};
    ghost use Rattle.ottl_text.specs.Grammar.{condition_of};
    ghost use Rattle.ottl_text.specs.Syntax.{term_of};
    ghost use Rattle.ottl_condition.specs.Workrooms.{Serves};

    ghost Value = { Context × List ℕ };

    ghost view = { λ it. (it.context, it.text) };

    ghost invariant = { λ it. (condition_of it.context it.text ≡ Ok (term_of it.read)) × Serves it.workroom (term_of it.read) };
}

impl Condition {
    /// The condition of a text. `Err` where memory was refused, the text is none, or a regular expression in it is none.
    pub fn new(alloc: Global, context: Context, text: &str) -> Result<Condition, AllocError>
        ensures { IfOk result (λ condition. condition ≡ (context, text.now)) }
    {
        match parse(alloc, context, text.as_bytes()) {
            Ok(read) => Ok(Condition {
                context,
                text: Text::from_str(alloc, text)?,
                workroom: workroom_for(alloc, &read)?,
                read,
            }),
            Err(_) => Err(AllocError),
        }
    }

    /// Whether it is the condition of this text on this.
    pub fn is(&self, context: Context, text: &str) -> bool
        ensures { result ≡ is_the self.now context text.now }
    {
        self.context == context && self.text.as_str() == text
    }

    /// Whether it is true of a span or of an event, or its error. It takes no memory that can be refused.
    #[tactic(auto, unfolding(crate::specs::Texts::said_of))]
    pub fn holds(&mut self, subject: Subject<'_>) -> Result<bool, EvalError>
        ensures said { result ≡ said_of self.old.0 self.old.1 (subject_of subject.entry) }
        ensures same { self.new ≡ self.old }
    {
        evaluate(&self.read, subject, &mut self.workroom)
    }
}
