//! Whether two values of OTLP are the same.
ghost use Rattle.std.specs.Prelude.{◌≡◌, ◌↔◌, IsTrue};

use otlp_types::{AnyValue, KeyValue, List, Resource, Scope, Text};
use std::num::f64_to_bits_with_nan;

/// A test of equality, which takes no memory.
pub trait Same {
    /// Whether both are equal.
    fn same(&self, other: &Self) -> bool
        ensures { IsTrue result ↔ (self.now ≡ other.now) };
}

impl Same for Text {
    fn same(&self, other: &Text) -> bool {
        self.as_str() == other.as_str()
    }
}

impl<T: Same> Same for List<T> {
    fn same(&self, other: &List<T>) -> bool {
        let a = self.as_slice();
        let b = other.as_slice();
        if a.len() != b.len() {
            return false;
        }
        for i in 0..a.len() {
            if !a[i].same(&b[i]) {
                return false;
            }
        }
        true
    }
}

impl Same for KeyValue {
    #[cycle(same)]
    fn same(&self, other: &KeyValue) -> bool {
        self.key.same(&other.key) && self.value.same(&other.value)
    }
}

impl Same for AnyValue {
    #[cycle(same)]
    fn same(&self, other: &AnyValue) -> bool {
        match (self, other) {
            (AnyValue::Empty, AnyValue::Empty) => true,
            (AnyValue::Str(a), AnyValue::Str(b)) => a.same(b),
            (AnyValue::Bool(a), AnyValue::Bool(b)) => *a == *b,
            (AnyValue::Int(a), AnyValue::Int(b)) => *a == *b,
            (AnyValue::Double(a), AnyValue::Double(b)) => same_float(a.get(), b.get()),
            (AnyValue::Array(a), AnyValue::Array(b)) => a.same(b),
            (AnyValue::KvList(a), AnyValue::KvList(b)) => a.same(b),
            (AnyValue::Bytes(a), AnyValue::Bytes(b)) => a.same(b),
            _ => false,
        }
    }
}

/// Whether both are one float, bit for bit: -0.0 isn't 0.0, and NaN is NaN.
fn same_float(x: f64, y: f64) -> bool
    ensures { IsTrue result ↔ (x ≡ y) }
{
    f64_to_bits_with_nan(x) == f64_to_bits_with_nan(y)
}

impl Same for Resource {
    fn same(&self, other: &Resource) -> bool {
        self.dropped_attributes_count == other.dropped_attributes_count
            && self.attributes.same(&other.attributes)
    }
}

impl Same for Scope {
    fn same(&self, other: &Scope) -> bool {
        self.dropped_attributes_count == other.dropped_attributes_count
            && self.name.same(&other.name)
            && self.version.same(&other.version)
            && self.attributes.same(&other.attributes)
    }
}
