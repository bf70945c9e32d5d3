//! The mark to stop.
ghost use Rattle.std.specs.Prelude.{◌≡◌};

use http_lane::HasStopMark;
use std::sync::{OnceLock, OnceToken, Wait};

/// Who asked the collector to close.
#[derive(Clone, Copy, PartialEq, Eq)]
pub enum Closer {
    /// A request at the address of requests, or an output that failed.
    Run,
    /// Somebody in charge, at the address for that.
    Admin,
    /// The end of the standard input.
    Input,
}

impl Closer {
    /// Its name in a log.
    pub fn name(self) -> &'static str {
        match self {
            Closer::Run => "request",
            Closer::Admin => "admin",
            Closer::Input => "end_of_input",
        }
    }
}

/// A mark that any thread may set, and that stays set: what is written once behind a `&` can't be taken back there.
#[derive(Drop)]
pub struct StopMark {
    set: OnceLock<Closer>,
}

impl StopMark {
    /// A mark that isn't set.
    pub fn new() -> Self {
        StopMark {
            set: OnceLock::new(),
        }
    }

    /// Sets the mark, and shows that it is set. The first one who did is known. It waits where another thread is setting
    /// it.
    pub fn set_shown<R: Wait>(&self, rt: &R, closer: Closer) -> OnceToken<'_, Closer>
        ensures { result.of ≡ self.now.set.id }
    {
        if let Ok(token) = self.set.try_set(closer) {
            return token;
        }
        for _ in rt.forever() {
            if let Some(token) = self.set.witness() {
                return token;
            }
        }
        unreachable!()
    }

    /// Sets the mark. The first one who did is known.
    pub fn set_by(&self, closer: Closer) {
        // An `Err` says that it is set, or that another thread is setting it.
        let _ = self.set.try_set(closer);
    }

    /// Who set the mark.
    pub fn closer(&self) -> Option<Closer> {
        match self.set.get() {
            Some(closer) => Some(*closer),
            None => None,
        }
    }
}

impl HasStopMark for StopMark {
    fn is_set(&self) -> bool {
        self.set.get().is_some()
    }

    fn set(&self) {
        self.set_by(Closer::Run);
    }
}
