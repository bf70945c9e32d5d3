//! Where a condition stands in the settings of its policy.
ghost use Rattle.std.specs.Prelude.{◌≡◌, IfOk, option_map};
ghost use Rattle.toml.specs.View.{view, array_view};
ghost use Rattle.config_faults.specs.Composites.{is_text};
ghost use Rattle.policy_places.specs.Walk as spec;
ghost use Rattle.std.specs.Prelude.{Some};

use crate::places::item_place;
use crate::walk::{FaultPlace, place_of};
use std::alloc::{AllocError, Global};
use toml::Value;
use toml::value::Array;

/// Where an array of texts, at a place, has this one first.
pub fn text_place(
    alloc: Global,
    place: &str,
    value: Option<&Value>,
    text: &str,
) -> Result<Option<FaultPlace>, AllocError>
    ensures { IfOk result (λ found. spec.seen found ≡ spec.text_place place.now text.now (option_map (λ v. view v.now) value.entry)) }
{
    match value {
        Some(Value::Array(items)) => text_among(alloc, place, items, text),
        _ => Ok(None),
    }
}

fn text_among(
    alloc: Global,
    place: &str,
    items: &Array,
    text: &str,
) -> Result<Option<FaultPlace>, AllocError>
    ensures { IfOk result (λ found. spec.seen found ≡ spec.text_among place.now text.now 0 (array_view items.now)) }
{
    let mut index = 0u64;
    for item in items {
        if is_text(item, text) {
            let here = item_place(alloc, place, index)?;
            return Ok(Some(place_of(alloc, here.as_str())?));
        }
        index = index.saturating_add(1);
    }
    Ok(None)
}

/// Whether a value is this text.
pub fn is_text(value: &Value, text: &str) -> bool
    ensures { result ≡ is_text text.now (Some (view value.now)) }
{
    match value {
        Value::String(found) => found.as_str() == text,
        _ => false,
    }
}
