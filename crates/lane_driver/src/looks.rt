//! What a connection does before a read, and what a look at it comes to.
ghost use Rattle.std.specs.Prelude.{◌≡◌, ℕ, Bool};
ghost use Rattle.lane_driver.specs.Looks.{before_read, is_cut, is_stopping, looked, serving_looked};

use crate::link::{Looked, Phase, SocketStep};
use lane_turns::Leaving;

/// Whether the mark to stop is set.
fn is_stopping(stopping: Option<u64>) -> bool
    ensures { result ≡ is_stopping stopping }
{
    stopping.is_some()
}

/// Whether the moment has come from which on no request goes on.
fn is_cut(stopping: Option<u64>, now: u64) -> bool
    ensures { result ≡ is_cut stopping now }
{
    match stopping {
        Some(moment) => now >= moment,
        None => false,
    }
}

/// What a look at a connection comes to on which requests are read.
fn serving_looked(is_idle: bool, is_sent: bool, by: u64, now: u64, stopping: Option<u64>) -> Looked
    ensures { result ≡ serving_looked is_idle is_sent by now stopping }
{
    if is_idle && is_sent {
        if is_stopping(stopping) || now >= by {
            return Looked::HasTurn;
        }
        return Looked::Waits(by);
    }
    // The collector closes, and no client may hold its end (D-177).
    if is_cut(stopping, now) {
        return Looked::Leaves(Leaving::ReadFailed);
    }
    if now < by {
        return Looked::Waits(by);
    }
    if is_sent {
        Looked::HasTurn
    } else {
        Looked::Leaves(Leaving::WriteFailed)
    }
}

/// What a look at a connection comes to now, whose time is over at the moment `by`; from the moment `stopping` on no
/// request goes on.
pub fn looked(
    phase: Phase,
    is_idle: bool,
    is_sent: bool,
    by: u64,
    now: u64,
    stopping: Option<u64>,
) -> Looked
    ensures { result ≡ looked phase is_idle is_sent by now stopping }
{
    match phase {
        Phase::Serving => serving_looked(is_idle, is_sent, by, now, stopping),
        Phase::Closing | Phase::Lingering { .. } => {
            if is_cut(stopping, now) || now >= by {
                Looked::Over
            } else {
                Looked::Waits(by)
            }
        }
    }
}

/// What a connection that is served does before a read, if it doesn't read; `reads` are left to it. Without any it is to
/// be served again, since the last one gave bytes.
pub fn before_read(is_sent: bool, reads: usize) -> Option<SocketStep>
    ensures { result ≡ before_read is_sent reads }
{
    if !is_sent {
        return Some(SocketStep::Waits);
    }
    if reads == 0 {
        return Some(SocketStep::GoesOn);
    }
    None
}
