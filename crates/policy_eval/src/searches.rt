//! What searches for the regular expressions of policies, and their conditions as they were read.
ghost use Rattle.std.specs.Prelude.{◌≡◌, ◌++◌, true, [], map, OnOk};
ghost use Rattle.expression.specs.Expressions.{is_known, is_match};
ghost use Rattle.ottl_text.specs.declared.expression.Context.TheVariants.{Span, SpanEvent};
ghost use Rattle.ottl_lists.specs.Lists.{trace_meets};
ghost use Rattle.policy_eval.specs.Policies.{holds_so};
ghost use Rattle.policy_tree.specs.declared.expressions.ExpressionKind.TheVariants.{Condition};
ghost use Rattle.policy_tree.specs.Expressions.{of_kind};
ghost use Rattle.policy_eval.specs.Searches.{are_known, with_one};

use otlp_types::{Arrival, List, Text};
use ottl_lists::Conditions;
use ottl_text::ErrorMode;
use policy_tree::{ExpressionKind, PolicyExpression};
use std::alloc::{AllocError, Global};
use std::marker::Model;

/// The expressions of policies, ready to be asked, which contracts see as what is known.
#[derive(Drop)]
pub struct Searches {
    expressions: expression::Searches,
    conditions: Conditions,
}

impl Model for Searches {
    ghost use Rattle.std.specs.Prelude.{ℕ, List};
    ghost use Rattle.ottl_text.specs.declared.expression.Context.{Context};

    ghost Value = { List (List ℕ) × List (Context × List ℕ) };

    ghost view = { λ it. (it.expressions, it.conditions) };
}

impl Searches {
    /// For no expressions. It takes no memory.
    pub fn new(alloc: Global) -> Searches
        ensures { result ≡ ([], []) }
    {
        Searches {
            expressions: expression::Searches::new(alloc),
            conditions: Conditions::new(alloc),
        }
    }

    /// Puts an expression last. `Err` where memory was refused, or the text is none.
    pub fn add(&mut self, alloc: Global, expression: &PolicyExpression) -> Result<(), AllocError>
        ensures { OnOk result (self.new ≡ with_one self.old expression.now.kind expression.now.text) }
    {
        let text = expression.text.as_str();
        match expression.kind {
            ExpressionKind::Regular => self.expressions.add(alloc, text),
            ExpressionKind::Condition(context) => self.conditions.add(alloc, context, text),
        }
    }

    /// Whether the regular expression of this text has a match in the value. It takes no memory that can be refused.
    pub fn finds(&mut self, text: &str, value: &str) -> bool
        requires known { is_known self.old.0 text.now ≡ true }
        ensures found { result ≡ is_match text.now value.now }
        ensures same { self.new ≡ self.old }
    {
        self.expressions.finds(text, value)
    }

    /// Whether some span of a trace meets one of the conditions on spans, or one of its events one of those on events, where no
    /// error ends them. It takes no memory that can be refused.
    #[tactic(auto, using(crate::proofs::Known::on_span_known, crate::proofs::Known::on_event_known))]
    pub fn meets(
        &mut self,
        mode: ErrorMode,
        on_span: &List<Text>,
        on_event: &List<Text>,
        spans: &[Arrival],
    ) -> bool
        requires known { are_known self.old (map (of_kind (Condition Span)) on_span.now ++ map (of_kind (Condition SpanEvent)) on_event.now) ≡ true }
        ensures met { result ≡ holds_so (trace_meets mode on_span.now on_event.now spans.now) }
        ensures same { self.new ≡ self.old }
    {
        let (on_span, on_event) = (on_span.as_slice(), on_event.as_slice());
        // Under `propagate` an error makes the policy answer *not sample* (D-349).
        match ottl_lists::trace_meets(&mut self.conditions, mode, on_span, on_event, spans) {
            Ok(holds) => holds,
            Err(_) => false,
        }
    }
}
