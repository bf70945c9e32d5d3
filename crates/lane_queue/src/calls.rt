//! What a receiver's calls found, in order: a log that takes no memory, since only contracts read it.
ghost use Rattle.std.specs.Prelude.{◌≡◌, [], ◌∷◌, ◌++◌};

use std::marker::Model;
use std::snapshot::Snapshot;

/// What a call found.
#[derive(Clone, Copy, Debug, PartialEq, Eq)]
pub enum Call {
    /// An item in the queue at this place, which it popped.
    Popped(usize),
    /// Nothing in the queue at this place.
    FoundEmpty(usize),
}

/// What the calls of a receiver found, the oldest first, as contracts see it. The program keeps of it the newest one
/// alone.
#[derive(Drop)]
pub struct CallLog {
    newest: Option<(Call, Snapshot<CallLog>)>,
}

impl Model for CallLog {
    ghost use Rattle.std.specs.Prelude.{List, length};
    ghost use Rattle.lane_queue.specs.Calls.{calls_of};
    ghost use Rattle.lane_queue.specs.declared.calls.Call.{Call};
    ghost use Rattle.std.proofs.Common.{arith, length-append};

    ghost Value = { List Call };

    ghost view = { λ l. calls_of l.newest };

    ghost size = { length };

    ghost size_decreases = { λ a h. Prim.grind (arith, length-append) };
}

impl CallLog {
    /// Nothing was called.
    pub fn new() -> Self
        ensures { result ≡ [] }
    {
        CallLog { newest: None }
    }

    /// A call found this.
    pub fn add(&mut self, call: Call)
        ensures { self.new ≡ self.old ++ call ∷ [] }
    {
        let earlier = Snapshot::of(&*self);
        self.newest = Some((call, earlier));
    }
}
