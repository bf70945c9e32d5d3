//! How many levels a text needs, counted up to one more than may nest.
ghost use Rattle.std.specs.Prelude.{◌≡◌, ◌+◌, ◌≤◌, ℕ, min, max, true, if◌then◌else◌};
ghost use Rattle.ottl_text.specs.Syntax.{term_of};
ghost use Rattle.ottl_print.specs.Printing as spec;
ghost use Rattle.ottl_print.specs.Sizes.{IsCapped, IsSizeOf};

use crate::names::{is_operator, precedence};
use ottl_text::{Binary, Expression, Unary};

/// So many levels may nest, or operators stand in a row.
pub(crate) const MOST_LEVELS: usize = 200;

/// One level more.
const TOO_MANY: usize = 201;

/// The levels that a text needs, and the operators that stand in it in a row outside parentheses.
#[derive(Clone, Copy)]
pub(crate) struct Size {
    pub(crate) levels: usize,
    pub(crate) row: usize,
}

fn capped(n: usize) -> usize
    ensures small { result ≤ 201 }
    ensures same { IsCapped result n }
{
    if n > TOO_MANY { TOO_MANY } else { n }
}

/// These levels, and `by` more.
fn more(levels: usize, by: usize) -> usize
    requires { (levels ≤ 201) × (by ≤ 2) }
    ensures small { result ≤ 201 }
    ensures same { (n : ℕ) → IsCapped levels n → IsCapped result (n + by) }
{
    capped(levels + by)
}

fn larger(left: usize, right: usize) -> usize
    requires { (left ≤ 201) × (right ≤ 201) }
    ensures small { result ≤ 201 }
    ensures same { (m n : ℕ) → IsCapped left m → IsCapped right n → IsCapped result (max m n) }
{
    if left < right { right } else { left }
}

/// How tight the outermost operator binds.
pub(crate) fn tightness(expression: &Expression) -> u8
    ensures same { result ≡ spec.tightness (term_of expression.now) }
    ensures small { result ≤ 6 }
{
    match expression {
        Expression::Binary(binary, _, _) => {
            if is_operator(*binary) {
                precedence(*binary)
            } else {
                6
            }
        }
        Expression::Unary(unary, _) => { if *unary == Unary::Not { 3 } else { 6 } }
        _ => 6,
    }
}

fn is_row(expression: &Expression) -> bool
    ensures { result ≡ spec.is_row (term_of expression.now) }
{
    match expression {
        Expression::Binary(binary, _, _) => is_operator(*binary),
        _ => false,
    }
}

/// The levels in parentheses or without.
fn inside(parentheses: bool, levels: usize) -> usize
    requires { levels ≤ 201 }
    ensures small { result ≤ 201 }
    ensures same { (n : ℕ) → IsCapped levels n → IsCapped result (if parentheses then n + 1 else n) }
{
    if parentheses {
        capped(levels + 1)
    } else {
        levels
    }
}

/// The levels of an expression where operators have to bind at least so tight.
pub(crate) fn levels_at(least: u8, expression: &Expression, levels: usize) -> usize
    requires { levels ≤ 201 }
    ensures small { result ≤ 201 }
    ensures same { (n : ℕ) → IsCapped levels n → IsCapped result (spec.levels_at least (term_of expression.now) n) }
{
    inside(tightness(expression) < least, levels)
}

/// The size of what has no row.
fn alone(levels: usize) -> Size
    requires { levels ≤ 201 }
    ensures small { (result.levels ≤ 201) × (result.row ≤ 201) }
    ensures same { (n : ℕ) → IsCapped levels n → IsSizeOf (spec.alone n) result.levels result.row }
{
    Size { levels, row: 0 }
}

/// The size of two operands, the first in parentheses or not.
fn joined(parentheses: bool, left: Size, right: usize) -> Size
    requires { (left.levels ≤ 201) × (left.row ≤ 201) × (right ≤ 201) }
    ensures small { (result.levels ≤ 201) × (result.row ≤ 201) }
    ensures same { (s : spec.Size) (n : ℕ) → IsSizeOf s left.levels left.row → IsCapped right n
        → IsSizeOf (spec.joined_size parentheses s n) result.levels result.row }
{
    if parentheses {
        Size {
            levels: larger(capped(left.levels + 1), capped(right + 2)),
            row: 1,
        }
    } else {
        Size {
            levels: larger(left.levels, capped(left.row + 2 + right)),
            row: capped(left.row + 1),
        }
    }
}

/// Whether parentheses save levels: the operand on the left and what follows it take more in a row.
fn saves_levels(sparing: bool, left: &Expression, size: Size, right: usize) -> bool
    requires { (size.row ≤ 201) × (right ≤ 201) }
    ensures { (s : spec.Size) (n : ℕ) → IsSizeOf s size.levels size.row → IsCapped right n → (sparing ≡ true → s.levels ≤ 200)
        → result ≡ spec.saves_levels sparing (term_of left.now) s n }
{
    // Operators in a row count as levels, so parentheses may save some (D-357).
    let is_long = size.levels < size.row + 2 + right;
    if sparing && is_row(left) {
        is_long
    } else {
        false
    }
}

/// Whether the operand on the left stands in parentheses, from its size and the levels of that on the right.
pub(crate) fn has_parentheses(
    sparing: bool,
    binary: Binary,
    left: &Expression,
    size: Size,
    right: usize,
) -> bool
    requires { (size.row ≤ 201) × (right ≤ 201) }
    ensures { (s : spec.Size) (n : ℕ) → IsSizeOf s size.levels size.row → IsCapped right n → (sparing ≡ true → s.levels ≤ 200)
        → result ≡ spec.has_parentheses sparing binary (term_of left.now) s n }
{
    let is_loose = tightness(left) < precedence(binary);
    if is_loose {
        true
    } else {
        saves_levels(sparing, left, size, right)
    }
}

/// The size of two operands and the operator between them.
fn operator_size(sparing: bool, binary: Binary, left: &Expression, size: Size, right: usize) -> Size
    requires { (size.levels ≤ 201) × (size.row ≤ 201) × (right ≤ 201) }
    ensures small { (result.levels ≤ 201) × (result.row ≤ 201) }
    ensures same { (s : spec.Size) (n : ℕ) → IsSizeOf s size.levels size.row → IsCapped right n
        → IsSizeOf (spec.joined_size (spec.has_parentheses sparing binary (term_of left.now) s n) s n) result.levels result.row }
{
    let parentheses = has_parentheses(sparing, binary, left, size, right);
    joined(parentheses, size, right)
}

/// The least tightness of what a function takes.
pub(crate) const ARGUMENT: u8 = 4;

/// How tight what it takes has to bind.
fn operand_of_one(unary: Unary) -> u8
    ensures { result ≡ spec.operand_of_one unary }
{
    match unary {
        Unary::Not => 3,
        _ => ARGUMENT,
    }
}

/// The levels of its own.
fn levels_of_one(unary: Unary) -> usize
    ensures small { result ≤ 2 }
    ensures same { result ≡ spec.levels_of_one unary }
{
    match unary {
        Unary::Like => 2,
        _ => 1,
    }
}

/// The size of a call of a function of one value, or of `not`.
fn one_size(unary: Unary, of: &Expression, size: Size) -> Size
    requires { size.levels ≤ 201 }
    ensures small { (result.levels ≤ 201) × (result.row ≤ 201) }
    ensures same { (s : spec.Size) → IsSizeOf s size.levels size.row
        → IsSizeOf (spec.one_size unary (term_of of.now) s) result.levels result.row }
{
    let least = operand_of_one(unary);
    let by = levels_of_one(unary);
    alone(more(levels_at(least, of, size.levels), by))
}

/// The size of a call of a function whose other arguments aren't expressions.
fn call_size(of: &Expression, size: Size) -> Size
    requires { size.levels ≤ 201 }
    ensures small { (result.levels ≤ 201) × (result.row ≤ 201) }
    ensures same { (s : spec.Size) → IsSizeOf s size.levels size.row
        → IsSizeOf (spec.alone (spec.levels_at spec.argument (term_of of.now) s.levels + 1)) result.levels result.row }
{
    alone(more(levels_at(ARGUMENT, of, size.levels), 1))
}

/// The levels of what a function takes.
fn argument_levels(of: &Expression, size: Size) -> usize
    requires { size.levels ≤ 201 }
    ensures small { result ≤ 201 }
    ensures same { (s : spec.Size) → IsSizeOf s size.levels size.row → IsCapped result (spec.levels_at spec.argument (term_of of.now) s.levels) }
{
    levels_at(ARGUMENT, of, size.levels)
}

/// The size of `Substring`, from the levels of what it takes.
fn part_size(text: usize, start: usize, count: usize) -> Size
    requires { (text ≤ 201) × (start ≤ 201) × (count ≤ 201) }
    ensures small { (result.levels ≤ 201) × (result.row ≤ 201) }
    ensures same { (l m n : ℕ) → IsCapped text l → IsCapped start m → IsCapped count n
        → IsSizeOf (spec.part_size l m n) result.levels result.row }
{
    let last = larger(start, count);
    let all = larger(text, last);
    alone(more(all, 1))
}

/// The size of an expression's text.
pub(crate) fn size_of(sparing: bool, expression: &Expression) -> Size
    ensures small { (result.levels ≤ 201) × (result.row ≤ 201) }
    ensures size { IsSizeOf (spec.size sparing (term_of expression.now)) result.levels result.row }
{
    match expression {
        Expression::Literal(_) => alone(2),
        Expression::IsRootSpan => alone(2),
        Expression::Path(path) => alone(more(capped(path.keys.len()), 2)),
        Expression::Unary(unary, of) => one_size(*unary, of, size_of(sparing, of)),
        Expression::Binary(binary, left, right) => {
            let first = size_of(sparing, left);
            let second = size_of(sparing, right);
            if is_operator(*binary) {
                let levels = levels_at(precedence(*binary) + 1, right, second.levels);
                return operator_size(sparing, *binary, left, first, levels);
            }
            let first = levels_at(ARGUMENT, left, first.levels);
            let second = levels_at(ARGUMENT, right, second.levels);
            let both = larger(first, second);
            alone(more(both, 1))
        }
        Expression::IsMatch(of, _) => call_size(of, size_of(sparing, of)),
        Expression::Cased(_, of) => call_size(of, size_of(sparing, of)),
        Expression::Substring(text, start, count) => {
            let of_text = argument_levels(text, size_of(sparing, text));
            let of_start = argument_levels(start, size_of(sparing, start));
            let of_count = argument_levels(count, size_of(sparing, count));
            part_size(of_text, of_start, of_count)
        }
        Expression::Concat(first, _, others) => {
            let first = size_of(sparing, first).levels;
            let others = size_of(sparing, others).levels;
            alone(larger(first, more(others, 1)))
        }
    }
}
