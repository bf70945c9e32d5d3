//! Walks over all connections, for those whose time is over.
ghost use Rattle.std.specs.Prelude.{◌≡◌, ◌≤◌, Some, None};
ghost use Rattle.lane_driver.specs.Walks.{begun, ended, met, never, sooner};

/// The least time between two walks, in milliseconds.
const PAUSE: u64 = 100;

/// A walk over all places, and when the next begins.
#[derive(Clone, Copy, PartialEq, Eq)]
pub struct Walk {
    /// The next place of the one that is under way.
    pub at: Option<usize>,
    /// The least deadline that it met.
    least: u64,
    /// The moment at which the next begins.
    pub next: u64,
}

impl Walk {
    /// None is under way, and none is to begin.
    pub fn new() -> Self
        ensures { result ≡ record { at = None; least = never; next = never } }
    {
        Walk {
            at: None,
            least: u64::MAX,
            next: u64::MAX,
        }
    }

    /// The next begins no later than at this moment, also where one is under way.
    pub fn comes_by(&mut self, moment: u64)
        ensures next { self.new.next ≤ moment }
        ensures behind { self.new.least ≤ moment }
        ensures walk { self.new ≡ sooner self.old moment }
    {
        self.next = self.next.min(moment);
        self.least = self.least.min(moment);
    }

    /// The one that is under way met this deadline.
    pub fn meets(&mut self, deadline: u64)
        ensures least { self.new.least ≤ deadline }
        ensures behind { self.new.least ≤ self.old.least }
        ensures walk { self.new ≡ met self.old deadline }
    {
        self.least = self.least.min(deadline);
    }

    /// The next begins if its moment has come.
    pub fn begin_if_due(&mut self, now: u64)
        ensures { self.new ≡ begun self.old now }
    {
        if now >= self.next {
            self.at = Some(0);
            self.least = u64::MAX;
        }
    }

    /// The one that was under way ends. The next begins at the least deadline, if there is one.
    pub fn end(&mut self, now: u64)
        ensures { self.new ≡ ended self.old now }
    {
        self.at = None;
        self.next = self.least;
        if self.least < u64::MAX {
            // Not at once, since a walk looks at every connection.
            self.next = self.least.max(now.saturating_add(PAUSE));
        }
    }
}
