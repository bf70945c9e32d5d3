//! Doubles that are kept, and their texts.
ghost use Rattle.std.specs.Prelude.{◌≡◌, true};
ghost use Rattle.std.specs.Float.{float_is_finite};
ghost use Rattle.otlp_types.specs.Doubles.{double_text, HasText};

use arrayvec::ArrayString;
use std::marker::Model;

/// A 64-bit float (`common.proto` v1, `double_value`).
#[derive(Clone, Copy)]
pub struct Double {
    value: f64,
}

impl Model for Double {
    ghost use Rattle.std.specs.Prelude.{Float};

    ghost Value = { Float };

    ghost view = { λ it. it.value };

    ghost invariant = { λ it. Unit {0} };

    ghost inverse = { λ x. record { value = x } };
}

impl Double {
    /// The double of a float.
    pub fn new(value: f64) -> Double
        ensures { result ≡ value }
    {
        Double { value }
    }

    /// The float.
    pub fn get(&self) -> f64
        ensures value { result ≡ self.now }
    {
        self.value
    }

    /// The text of a finite double: the fewest digits that read as it.
    pub fn text(&self) -> ArrayString<32>
        requires { float_is_finite self.now ≡ true }
        ensures bytes { result.bytes ≡ double_text self.now }
        ensures text { HasText self.now }
    {
        shortest_float::text_of(self.value)
    }
}
