//! How places in a configuration are written.
ghost use Rattle.std.specs.Prelude.{◌≡◌, IfOk, string_bytes};
ghost use Rattle.policy_places.specs.Places as spec;

use std::alloc::{AllocError, Global};

/// The place of a key of the table at a place; the place of the whole table is empty.
pub fn key_place(alloc: Global, place: &str, key: &str) -> Result<String, AllocError>
    ensures { IfOk result (λ said. string_bytes said ≡ spec.key_place place.now key.now) }
{
    if place.is_empty() {
        String::from_str(alloc, key)
    } else {
        format!(in alloc; "{place}.{key}")
    }
}

/// The place of an item of the array at a place, by its number from 0.
pub fn item_place(alloc: Global, place: &str, index: u64) -> Result<String, AllocError>
    ensures { IfOk result (λ said. string_bytes said ≡ spec.item_place place.now index) }
{
    format!(in alloc; "{place}[{index}]")
}
