//! Regular expressions (tailsamplingprocessor README, `string_attribute`, `enabled_regex_matching`).
ghost use Rattle.std.specs.Prelude.{◌≡◌, ◌+◌, ◌^◌, ◌≤◌, true, false, IfOk};
ghost use Rattle.expression.specs.Expressions.{is_expression, is_match, MatchesAs};
ghost use Rattle.regex.specs.Strings.{regex_source, regex_config, regex_pattern, regex_size, matcher_pattern, IsReadFromSource};
ghost use Rattle.regex.specs.Patterns.{default_config};

use regex::{Error, Matcher, Regex, RegexBuilder};
use std::alloc::{AllocError, Global};
use std::fmt;
use std::marker::Model;

/// About how many bytes a compiled expression may take.
const GREATEST_SIZE: usize = 1 << 20;

/// A regular expression by its text, with what searches for it. The compiled expression is never freed: a policy is
/// kept as long as the process runs.
#[derive(Drop)]
pub struct Expression {
    text: String,
    matcher: Matcher<'static>,
}

impl Model for Expression {
    ghost use Rattle.std.specs.Prelude.{◌≡◌, ℕ, List, true, string_bytes};
    ghost use Rattle.expression.specs.Expressions.{is_expression, MatchesAs};
    ghost use Rattle.regex.specs.Strings.{matcher_pattern};

    ghost Value = { List ℕ };

    ghost view = { λ e. string_bytes e.text };

    ghost invariant = { λ e. (is_expression (string_bytes e.text) ≡ true) × MatchesAs (string_bytes e.text) (matcher_pattern e.matcher) };
}

/// Why a text is no expression that a policy can have.
#[derive(Clone, Copy, Debug, PartialEq, Eq)]
pub enum ExpressionFault {
    /// The text isn't one.
    NotAnExpression,
    /// Compiled, it would take more than about 1 MiB.
    TooBig,
    /// Memory was refused.
    NoMemory,
}

impl fmt::Display for ExpressionFault {
    ghost use Rattle.std.specs.Prelude.{Some};
    ghost use Rattle.expression.specs.FaultTexts.{fault_text};

    ghost output = { λ fault. Some (fault_text fault) };

    fn fmt<W: fmt::Write>(&self, f: &mut fmt::Formatter<W>) -> fmt::Result {
        match self {
            ExpressionFault::NotAnExpression => f.write_str("the text is no regular expression"),
            ExpressionFault::TooBig => f.write_str("the regular expression is too big"),
            ExpressionFault::NoMemory => f.write_str("no memory"),
        }
    }
}

impl std::error::Error for ExpressionFault {}

/// Tells whether a text is an expression that a policy can have.
pub fn check(alloc: Global, text: &str) -> Result<(), ExpressionFault>
    ensures expression { IfOk result (λ _. is_expression text.now ≡ true) }
    ensures refused { result ≡ Err ExpressionFault.NotAnExpression → is_expression text.now ≡ false }
    ensures big { result ≡ Err ExpressionFault.TooBig → is_expression text.now ≡ true }
{
    let _regex = compiled(alloc, text)?;
    Ok(())
}

/// The expression of this text, compiled, whose tables take at most 1 MiB and 24 bytes.
fn compiled(alloc: Global, text: &str) -> Result<Regex, ExpressionFault>
    ensures source { IfOk result (λ regex. regex_source regex ≡ text.now) }
    ensures config { IfOk result (λ regex. regex_config regex ≡ default_config) }
    ensures read { IfOk result IsReadFromSource }
    ensures small { IfOk result (λ regex. regex_size regex ≤ 2 ^ 20 + 24) }
    ensures expression { IfOk result (λ _. is_expression text.now ≡ true) }
    ensures refused { result ≡ Err ExpressionFault.NotAnExpression → is_expression text.now ≡ false }
    ensures big { result ≡ Err ExpressionFault.TooBig → is_expression text.now ≡ true }
{
    match RegexBuilder::new(text)
        .size_limit(GREATEST_SIZE)
        .build(alloc)
    {
        Ok(regex) => Ok(regex),
        Err(Error::Syntax(_)) => Err(ExpressionFault::NotAnExpression),
        Err(Error::CompiledTooBig) => Err(ExpressionFault::TooBig),
        Err(Error::Internal) => unreachable!(),
        Err(Error::OutOfMemory) => Err(ExpressionFault::NoMemory),
    }
}

impl Expression {
    /// The expression of a text.
    pub fn new(alloc: Global, text: &str) -> Result<Expression, ExpressionFault>
        ensures text { IfOk result (λ expression. expression ≡ text.now) }
        ensures refused { result ≡ Err ExpressionFault.NotAnExpression → is_expression text.now ≡ false }
        ensures big { result ≡ Err ExpressionFault.TooBig → is_expression text.now ≡ true }
    {
        let regex = compiled(alloc, text)?;
        match leaked(alloc, regex, text) {
            Ok(expression) => Ok(expression),
            Err(AllocError) => Err(ExpressionFault::NoMemory),
        }
    }
}

impl Expression {
    /// The text.
    pub fn as_str(&self) -> &str
        ensures text { result.now ≡ self.now }
        ensures expression { is_expression self.now ≡ true }
    {
        self.text.as_str()
    }

    /// Whether the expression has a match in the value. It takes no memory that can be refused: what the search keeps
    /// of earlier ones grows as it goes.
    pub fn is_match(&mut self, value: &str) -> bool
        ensures found { result ≡ is_match self.old value.now }
        ensures same { self.new ≡ self.old }
    {
        self.matcher.is_match(value)
    }
}

/// The expression of this text, which was compiled to this.
fn leaked(alloc: Global, regex: Regex, text: &str) -> Result<Expression, AllocError>
    requires source { regex_source regex ≡ text.now }
    requires config { regex_config regex ≡ default_config }
    requires read { IsReadFromSource regex }
    ensures text { IfOk result (λ expression. expression ≡ text.now) }
    ensures expression { IfOk result (λ _. is_expression text.now ≡ true) }
{
    let text = String::from_str(alloc, text)?;
    let matcher = lasting(alloc, regex)?;
    Ok(Expression { text, matcher })
}

/// What searches for this expression, which is never freed.
fn lasting(alloc: Global, regex: Regex) -> Result<Matcher<'static>, AllocError>
    ensures { IfOk result (λ matcher. matcher_pattern matcher ≡ regex_pattern regex) }
{
    let regex: &'static mut Regex = Box::leak(Box::new(alloc, regex)?);
    regex.matcher(alloc)
}
