//! Of how many requests a clock was told.
ghost use Rattle.std.specs.Prelude.{◌≡◌, ◌+◌};

use std::marker::Model;
use std::snapshot::Snapshot;

/// Of how many requests a lane has told its clock so far, as contracts see it: so the place of the next one among them.
/// Only contracts read it, so no number is kept.
#[derive(Drop)]
pub struct RequestsTold {
    earlier: Option<Snapshot<RequestsTold>>,
}

impl Model for RequestsTold {
    ghost use Rattle.std.specs.Prelude.{ℕ};
    ghost use Rattle.http_lane.specs.Places.{place_behind};
    ghost use Rattle.std.proofs.Common.{arith};

    ghost Value = { ℕ };

    ghost view = { λ t. place_behind t.earlier };

    ghost size = { λ n. n };

    ghost size_decreases = { λ a h. Prim.grind arith };
}

impl RequestsTold {
    /// It was told of none.
    pub fn new() -> Self
        ensures { result ≡ 0 }
    {
        RequestsTold { earlier: None }
    }

    /// It was told of one more.
    pub fn add(&mut self)
        ensures { self.new ≡ self.old + 1 }
    {
        let earlier = Snapshot::of(&*self);
        self.earlier = Some(earlier);
    }
}
