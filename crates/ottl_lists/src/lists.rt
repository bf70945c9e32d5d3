//! Lists of conditions, of which one suffices.
ghost use Rattle.std.specs.Prelude.{◌≡◌, true};
ghost use Rattle.ottl_text.specs.declared.expression.Context.TheVariants.{Span, SpanEvent};
ghost use Rattle.ottl_condition.specs.Subjects.{subject_of};
ghost use Rattle.ottl_lists.specs.Texts.{are_known};
ghost use Rattle.ottl_lists.specs.Lists as spec;

use crate::conditions::Conditions;
use otlp_types::{Arrival, Record, Text};
use ottl_condition::{EvalError, Subject};
use ottl_text::{Context, ErrorMode};

/// Whether one of the conditions of these texts is true of a span or of an event, or an error that ends them.
fn some_holds(
    conditions: &mut Conditions,
    mode: ErrorMode,
    context: Context,
    texts: &[Text],
    subject: Subject<'_>,
) -> Result<bool, EvalError>
    requires known { are_known conditions.old context texts.now ≡ true }
    ensures said { result ≡ spec.some_holds mode context texts.now (subject_of subject.entry) }
    ensures same { conditions.new ≡ conditions.old }
{
    for text in texts {
        match conditions.holds(context, text.as_str(), subject) {
            Ok(true) => return Ok(true),
            Ok(false) => {}
            Err(error) => {
                // Otherwise it is passed over, and the next one is asked (D-341).
                if mode == ErrorMode::Propagate {
                    return Err(error);
                }
            }
        }
    }
    Ok(false)
}

/// Whether one of them is true of some event of a span, or an error that ends them.
fn some_event_holds(
    conditions: &mut Conditions,
    mode: ErrorMode,
    texts: &[Text],
    sent: &Record,
) -> Result<bool, EvalError>
    requires known { are_known conditions.old SpanEvent texts.now ≡ true }
    ensures said { result ≡ spec.some_event_holds mode texts.now sent.now sent.now.span.events }
    ensures same { conditions.new ≡ conditions.old }
{
    for event in sent.span.get().events.as_slice() {
        let subject = Subject::Event(sent, event);
        match some_holds(conditions, mode, Context::SpanEvent, texts, subject) {
            Ok(true) => return Ok(true),
            Ok(false) => {}
            Err(error) => return Err(error),
        }
    }
    Ok(false)
}

/// Whether one of the conditions on spans is true of a span, or one of those on events of one of its events, or an error that
/// ends them.
fn span_meets(
    conditions: &mut Conditions,
    mode: ErrorMode,
    on_span: &[Text],
    on_event: &[Text],
    sent: &Record,
) -> Result<bool, EvalError>
    requires on_span { are_known conditions.old Span on_span.now ≡ true }
    requires on_event { are_known conditions.old SpanEvent on_event.now ≡ true }
    ensures said { result ≡ spec.span_meets mode on_span.now on_event.now sent.now }
    ensures same { conditions.new ≡ conditions.old }
{
    match some_holds(
        conditions,
        mode,
        Context::Span,
        on_span,
        Subject::Span(sent),
    ) {
        Ok(false) => some_event_holds(conditions, mode, on_event, sent),
        said => said,
    }
}

/// Whether some span of a trace meets a condition on spans, or one of its events a condition on events, or an error that ends
/// it. The spans are asked in their order, each before its events, and those before the next span. The conditions, which are
/// among those that were read, are given by their texts. It takes no memory that can be refused.
pub fn trace_meets(
    conditions: &mut Conditions,
    mode: ErrorMode,
    on_span: &[Text],
    on_event: &[Text],
    spans: &[Arrival],
) -> Result<bool, EvalError>
    requires on_span { are_known conditions.old Span on_span.now ≡ true }
    requires on_event { are_known conditions.old SpanEvent on_event.now ≡ true }
    ensures said { result ≡ spec.trace_meets mode on_span.now on_event.now spans.now }
    ensures same { conditions.new ≡ conditions.old }
{
    // In the order in which they came, which matters under `propagate` alone (D-347).
    for arrival in spans {
        match span_meets(conditions, mode, on_span, on_event, &arrival.rec) {
            Ok(true) => return Ok(true),
            Ok(false) => {}
            Err(error) => return Err(error),
        }
    }
    Ok(false)
}
