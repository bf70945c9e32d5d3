//! The service of a span.
ghost use Rattle.std.specs.Prelude.{◌≡◌};
ghost use Rattle.run_comparison.specs.Services.{service_of};

use otlp_types::{AnyValue, Arrival};

/// The service of a span, by the first attribute of its resource that names one (OpenTelemetry semantic conventions,
/// `service.name`); empty where none does.
pub fn service_of(span: &Arrival) -> &str
    ensures { result.now ≡ service_of span.now }
{
    for attribute in span.rec.resource.get().attributes.as_slice() {
        if attribute.key.as_str() == "service.name" {
            if let AnyValue::Str(text) = &attribute.value {
                return text.as_str();
            }
        }
    }
    ""
}
