//! An assertion as a call: beside values that must be let go, a call costs a proof less than an assertion.
ghost use Rattle.std.specs.Prelude.{◌≡◌, true};

use std::fmt::Debug;
use std::process::Abort;

/// Ends the test, and tells what was seen, where this doesn't hold.
pub fn holds<S: Debug>(rt: &impl Abort, is: bool, seen: &S)
    ensures { is ≡ true }
{
    assert!(rt; is, "{seen:?}");
}
