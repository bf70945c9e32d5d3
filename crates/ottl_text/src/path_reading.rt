//! Paths by their texts.
ghost use Rattle.ottl_text.specs.Gives.{GivesAs};
ghost use Rattle.ottl_text.specs.Grammar as spec;
ghost use Rattle.ottl_text.specs.Syntax.{term_of};

use crate::expression::{Expression, Key, Path, Root};
use crate::fault::{FaultKind, ParseError};
use crate::pieces::{after_sign, is_the_sign, key_at, next_at, refused};
use otlp_types::List;
use std::alloc::Global;

/// The keys behind a path, behind those that were read: at most `levels` more.
#[tactic(auto, unfolding(crate::specs::Grammar::keyed))]
fn keyed(
    alloc: Global,
    behind: usize,
    levels: usize,
    mut keys: List<Key>,
    bytes: &[u8],
) -> Result<(List<Key>, &[u8]), ParseError>
    ensures { GivesAs (λ found. (found.0, found.1.now)) result (spec.keyed behind levels keys bytes.now) }
{
    if levels == 0 {
        return Err(refused(behind, FaultKind::TooDeep, bytes));
    }
    let (token, rest) = next_at(behind, bytes)?;
    if !is_the_sign(b'[', token) {
        return Ok((keys, bytes));
    }
    let (key, rest) = key_at(alloc, behind, rest)?;
    let rest = after_sign(behind, b']', FaultKind::NoClosingBracket, rest)?;
    keys.push(key)?;
    keyed(alloc, behind, levels - 1, keys, rest)
}

/// A path that begins so, behind its name.
#[tactic(auto, unfolding(crate::specs::Grammar::path_at))]
pub(crate) fn path_at(
    alloc: Global,
    behind: usize,
    levels: usize,
    root: Root,
    bytes: &[u8],
) -> Result<(Expression, &[u8]), ParseError>
    ensures { GivesAs (λ found. (term_of found.0, found.1.now)) result (spec.path_at behind levels root bytes.now) }
{
    let (keys, rest) = keyed(alloc, behind, levels, List::new(alloc), bytes)?;
    if root.takes_keys() || keys.len() == 0 {
        Ok((Expression::Path(Path { root, keys }), rest))
    } else {
        Err(refused(behind, FaultKind::TakesNoKeys, bytes))
    }
}
