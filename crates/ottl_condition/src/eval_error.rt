//! Why a condition is neither true nor false of a span.

/// Why a condition is neither true nor false of a span: the first error that is met, from left to right.
#[derive(Clone, Copy, Debug, PartialEq, Eq, Drop)]
pub enum EvalError {
    /// What stands where a condition has to is neither true nor false.
    NotABool,
    /// A sum, a difference, a product or a quotient of something else than numbers, times and durations of which it is one, or
    /// a place or a size that is no whole number.
    NotANumber,
    /// A quotient by 0.
    DividedByZero,
    /// A key goes into a value that is neither a map nor a list.
    NoKeysInside,
    /// A whole number goes into a map.
    KeyIsNoText,
    /// A text goes into a list.
    KeyIsNoIndex,
    /// A list has no such place.
    OutOfBounds,
    /// A function takes a text, and the value is none.
    NotAText,
    /// `Substring` begins below 0, takes no byte, reaches behind the end, or splits a character.
    OutOfText,
    /// `Duration` of a text that is none.
    NotADuration,
    /// `String` of a float, of bytes, a map, a list, a time or a duration, or such a value in `Concat`: that isn't here yet.
    NoText,
    /// A text that `ConvertCase` or `Concat` makes would be longer than 16,384 bytes.
    TextTooLong,
    /// The value has no length.
    NoLength,
}
