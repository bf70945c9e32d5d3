//! Why a text is no condition.
use std::alloc::{AllocError, AllocFailed};
use std::fmt;

/// What is wrong with a text.
#[derive(Clone, Copy, Debug, PartialEq, Eq, Drop)]
pub enum FaultKind {
    /// No piece of the language begins here.
    UnknownCharacter,
    /// The text that begins here has no end.
    OpenText,
    /// The text has a backslash before something else than `"`, `\`, `a`, `b`, `f`, `n`, `r`, `t`, `v`.
    UnknownEscape,
    /// The text has an end of a line in it; `\n` writes one.
    LineEnd,
    /// The text isn't in UTF-8.
    Utf8,
    /// The whole number is below -2^63 or not below 2^63.
    NumberTooBig,
    /// An odd number of hex digits stands behind `0x`.
    OddDigits,
    /// The name is none of a path, a function or an enumeration.
    UnknownName,
    /// Here a value would have to begin: a literal, a path, a function or a parenthesis.
    NoValueHere,
    /// Here `(` would have to stand.
    NoOpening,
    /// Here `)` would have to stand.
    NoClosing,
    /// Here `,` would have to stand.
    NoComma,
    /// Here a text in quotes would have to stand: a regular expression.
    NoPattern,
    /// Here a text in quotes would have to stand: what `Concat` puts between texts.
    NoDelimiter,
    /// Here `"lower"` or `"upper"` would have to stand.
    NoCase,
    /// Here a text in quotes or a whole number would have to stand: a key.
    NoKey,
    /// Here `[` would have to stand.
    NoOpeningBracket,
    /// Here `]` would have to stand.
    NoClosingBracket,
    /// What stands before has no keys.
    TakesNoKeys,
    /// The condition ends before this.
    GoesOn,
    /// Here a condition stands where a value would have to.
    NotAValue,
    /// Here a value stands where a condition would have to.
    NotACondition,
    /// Here something else than a number stands where one would have to.
    NotANumber,
    /// It nests too deep, or has too many operators, or values of `Concat`, in a row: more than 200. Or here the tree of
    /// an operator gets more than 400 deep.
    TooDeep,
}

impl fmt::Display for FaultKind {
    ghost use Rattle.std.specs.Prelude.{Some};
    ghost use Rattle.ottl_text.specs.FaultTexts.{fault_text};

    ghost output = { λ kind. Some (fault_text kind) };

    fn fmt<W: fmt::Write>(&self, f: &mut fmt::Formatter<W>) -> fmt::Result {
        match self {
            FaultKind::UnknownCharacter => f.write_str(
                "no value, name or operator begins with this character",
            ),
            FaultKind::OpenText => f.write_str("the text that begins here has no closing quote"),
            FaultKind::UnknownEscape => f.write_str(
                "one of \" \\ a b f n r t v is wanted behind a backslash",
            ),
            FaultKind::LineEnd => f.write_str(
                "a text goes on behind the end of its line; \\n writes one",
            ),
            FaultKind::Utf8 => f.write_str("the text isn't in UTF-8"),
            FaultKind::NumberTooBig => f.write_str("no number of 64 bits is this one"),
            FaultKind::OddDigits => f.write_str("an even number of hex digits is wanted behind 0x"),
            FaultKind::UnknownName => f.write_str("no path, function or enumeration has this name"),
            FaultKind::NoValueHere => f.write_str(
                "a literal, a path, a function or a parenthesis is wanted",
            ),
            FaultKind::NoOpening => f.write_str("( is wanted"),
            FaultKind::NoClosing => f.write_str(") is wanted"),
            FaultKind::NoComma => f.write_str(", is wanted"),
            FaultKind::NoPattern => f.write_str("a regular expression in quotes is wanted"),
            FaultKind::NoDelimiter => f.write_str("a delimiter in quotes is wanted"),
            FaultKind::NoCase => f.write_str(
                "\"lower\" or \"upper\" is wanted; no other case is known here",
            ),
            FaultKind::NoKey => f.write_str("a key in quotes or a whole number is wanted"),
            FaultKind::NoOpeningBracket => f.write_str("[ is wanted"),
            FaultKind::NoClosingBracket => f.write_str("] is wanted"),
            FaultKind::TakesNoKeys => f.write_str("what stands before this has no keys"),
            FaultKind::GoesOn => f.write_str("the condition ends before this"),
            FaultKind::NotAValue => f.write_str("a value is wanted, and a condition stands here"),
            FaultKind::NotACondition => f.write_str(
                "a condition is wanted, and a value stands here",
            ),
            FaultKind::NotANumber => f.write_str("a number is wanted"),
            FaultKind::TooDeep => f.write_str(
                "it nests more than 200 levels deep, has more than 200 operators or values in a row, or more than 400 of both within one another",
            ),
        }
    }
}

/// What is wrong, and where.
#[derive(Clone, Copy, Debug, PartialEq, Eq, Drop)]
pub struct Fault {
    pub kind: FaultKind,
    /// In bytes, from 1.
    pub column: usize,
}

/// Why no condition was read.
#[derive(Clone, Copy, Debug, PartialEq, Eq, Drop)]
pub enum ParseError {
    /// The text is none.
    Refused(Fault),
    /// Memory was refused.
    NoMemory,
}

impl From<AllocError> for ParseError {
    ghost use Rattle.std.specs.Prelude.{◌≡◌};
    ghost use Rattle.ottl_text.specs.declared.fault.ParseError.TheVariants.{NoMemory};

    ghost from_gives = { λ _ e. e ≡ NoMemory };

    fn from(_refused: AllocError) -> ParseError {
        ParseError::NoMemory
    }
}

impl<T: Drop> From<AllocFailed<T>> for ParseError {
    ghost use Rattle.std.specs.Prelude.{◌≡◌};
    ghost use Rattle.ottl_text.specs.declared.fault.ParseError.TheVariants.{NoMemory};

    ghost from_gives = { λ _ e. e ≡ NoMemory };

    fn from(_refused: AllocFailed<T>) -> ParseError {
        ParseError::NoMemory
    }
}
