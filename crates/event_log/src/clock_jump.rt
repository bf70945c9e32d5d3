//! Whether the wall clock was set.
ghost use Rattle.std.specs.Prelude.{◌≡◌};
ghost use Rattle.event_log.specs.Jumps as spec;

/// How far the wall clock has to be from the time that passed, in milliseconds, to be said to have jumped.
pub const JUMP: u64 = 1_000;

/// By how many milliseconds the wall clock lies before or behind where it should be by the time that passed; `None`
/// where that is less than a second.
pub fn jump_of(wall: u64, expected: u64) -> Option<u64>
    ensures { result ≡ spec.jump_of wall expected }
{
    let apart = wall.abs_diff(expected);
    if JUMP <= apart { Some(apart) } else { None }
}
