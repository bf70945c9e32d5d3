//! Texts that are made in room that was reserved.
ghost use Rattle.std.specs.Prelude.{◌≡◌, ◌+◌, ◌<◌, ◌≤◌, ◌↔◌, ◌++◌, length, IsTrue};
ghost use Rattle.std.specs.Option.{option_map};
ghost use Rattle.std.specs.Slice.Iter.{iter_mut_rest};
ghost use Rattle.ottl_made_texts.specs.MadeTexts as spec;

use crate::cases::letter_in;
use crate::rooms::{TextRoom, next_room};
use ottl_text::Case;
use std::slice::IterMut;

/// Puts a text in a case into the room; whether there was room for it.
fn put_in_case(case: Case, text: &str, room: &mut TextRoom) -> bool
    ensures fits { IsTrue result ↔ (length (spec.letters_in case text.now) ≤ spec.most_bytes) }
    ensures made { IsTrue result → room.new.bytes ≡ spec.letters_in case text.now }
{
    room.clear();
    for letter in text.chars() {
        match room.try_push(letter_in(case, letter)) {
            Ok(()) => {}
            Err(_) => return false,
        }
    }
    true
}

/// Puts a text behind those in the room; whether there was room for it.
fn put(text: &str, room: &mut TextRoom) -> bool
    ensures fits { IsTrue result ↔ (length room.old.bytes + length text.now ≤ spec.most_bytes) }
    ensures put { IsTrue result → room.new.bytes ≡ room.old.bytes ++ text.now }
{
    match room.try_push_str(text) {
        Ok(()) => true,
        Err(_) => false,
    }
}

/// Puts two texts and a delimiter between them into the room; whether there was room for them.
fn put_joined(first: &str, delimiter: &str, others: &str, room: &mut TextRoom) -> bool
    ensures fits { IsTrue result ↔ (length (first.now ++ delimiter.now ++ others.now) ≤ spec.most_bytes) }
    ensures made { IsTrue result → room.new.bytes ≡ first.now ++ delimiter.now ++ others.now }
{
    room.clear();
    if !put(first, room) {
        return false;
    }
    if !put(delimiter, room) {
        return false;
    }
    put(others, room)
}

/// A text in a case, in the next room. `None` where it would be longer than that.
#[tactic(auto, using(crate::proofs::Letters::is_within, crate::proofs::Letters::is_not_within))]
pub fn in_case<'a>(case: Case, text: &str, rooms: &mut IterMut<'a, TextRoom>) -> Option<&'a str>
    requires { 0 < length (iter_mut_rest rooms.old) }
    ensures made { option_map (λ made. made.now) result ≡ spec.in_case case text.now }
    ensures rest { length (iter_mut_rest rooms.new) + 1 ≡ length (iter_mut_rest rooms.old) }
{
    let room = next_room(rooms);
    if put_in_case(case, text, room) {
        Some(room.as_str())
    } else {
        None
    }
}

/// Two texts with a delimiter between them, in the next room. `None` where they would be longer than that.
#[tactic(auto, using(crate::proofs::Letters::is_within, crate::proofs::Letters::is_not_within))]
pub fn joined<'a>(
    first: &str,
    delimiter: &str,
    others: &str,
    rooms: &mut IterMut<'a, TextRoom>,
) -> Option<&'a str>
    requires { 0 < length (iter_mut_rest rooms.old) }
    ensures made { option_map (λ made. made.now) result ≡ spec.joined first.now delimiter.now others.now }
    ensures rest { length (iter_mut_rest rooms.new) + 1 ≡ length (iter_mut_rest rooms.old) }
{
    let room = next_room(rooms);
    if put_joined(first, delimiter, others, room) {
        Some(room.as_str())
    } else {
        None
    }
}
