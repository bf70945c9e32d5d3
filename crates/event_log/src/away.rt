//! Whether a backend is away.
ghost use Rattle.std.specs.Prelude.{◌≡◌};
ghost use Rattle.event_log.specs.Away as spec;

/// What is to be said of a backend.
#[derive(Clone, Copy, PartialEq, Eq)]
pub enum AwayTurn {
    /// It doesn't answer.
    Away,
    /// It takes again, after so many milliseconds.
    Back(u64),
}

/// Since when a backend is away, after a look at this moment that saw it take something, fail to answer, or both, and
/// what is to be said. Where it did both it is there.
pub fn away_after(
    since: Option<u64>,
    takes: bool,
    fails: bool,
    now: u64,
) -> (Option<u64>, Option<AwayTurn>)
    ensures { result ≡ spec.away_after since takes fails now }
{
    match since {
        Some(began) if takes => (None, Some(AwayTurn::Back(now.saturating_sub(began)))),
        Some(began) => (Some(began), None),
        None if fails && !takes => (Some(now), Some(AwayTurn::Away)),
        None => (None, None),
    }
}
