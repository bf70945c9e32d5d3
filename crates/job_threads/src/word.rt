//! The start word.
ghost use Rattle.std.specs.Prelude.{◌≡◌, false};

use std::sync::{OnceLock, OnceToken, Wait};

/// Waits for the start word.
pub fn await_word<'s, R: Wait>(rt: &R, word: &'s OnceLock<bool>) -> OnceToken<'s, bool>
    ensures { result.of ≡ word.now.id }
{
    for _ in rt.forever() {
        word.wait(rt);
        if let Some(token) = word.witness() {
            return token;
        }
    }
    unreachable!()
}

/// Says no, once nothing more is started. Those who wait for the word don't say it, so none was said before; where it
/// had been yes, this would not return.
pub fn say_no<'s, R: Wait>(rt: &R, word: &'s OnceLock<bool>) -> OnceToken<'s, bool>
    ensures said { result.of ≡ word.now.id }
    ensures no { result.value ≡ false }
{
    let _ = word.set(rt, false);
    for _ in rt.forever() {
        let token = await_word(rt, word);
        if !*word.value(&token) {
            return token;
        }
    }
    unreachable!()
}
