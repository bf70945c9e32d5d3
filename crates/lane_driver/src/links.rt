//! The sockets of a lane's connections.
ghost use Rattle.std.specs.Prelude.{◌≡◌, ◌≢◌, ◌≤◌, ◌<◌, ◌+◌, ℕ, [], None, Some, IfErr, IfNone, IfOk, IfSome, IsFalse};
ghost use Rattle.slab.specs.Slab.{slab_len};
ghost use Rattle.lane_driver.specs.Taking.{leaves_by, taken_from};
ghost use Rattle.lane_driver.specs.Heard.{AllStay, MayEnd, PutsText, SendTheSame, unsent};

use crate::link::{ConnectionSocket, Phase, SocketStep, TurnResult};
use crate::loads::Loads;
use crate::readiness::NAP;
use crate::traffic::Traffic;
use http_lane::IDLE_LIMIT;
use slab::Slab;
use std::alloc::Global;
use std::collections::VecDeque;
use std::sync::Arc;

/// How long a lane leaves a new connection to the others, for each connection that it has more than they, in
/// milliseconds: what else the processors do may keep them from looking at once (D-170).
const PATIENCE: u64 = 8;

/// The longest time for which it does so, in milliseconds.
const MOST_PATIENCE: u64 = 32;

/// The least idle time of a connection that may be closed since too many files are open, in milliseconds (D-170).
const GRACE: u64 = 1_000;

/// The sockets of the connections that are served, and of those whose last answer is under way, each at its place.
#[derive(Drop)]
pub struct Links {
    slab: Slab<ConnectionSocket>,
    /// The most that are open at once, beside one that came last.
    pub limit: usize,
    /// Places from which on there is no link.
    pub end: usize,
    /// The places of those that are to be served.
    ready: VecDeque<usize>,
    /// How many each lane has, and the number of this one.
    loads: Arc<Loads, Global>,
    lane: usize,
}

impl Links {
    /// None.
    pub fn new(alloc: Global, limit: usize, loads: Arc<Loads, Global>, lane: usize) -> Self
        ensures { result.limit ≡ limit }
    {
        Links {
            slab: Slab::new(alloc),
            limit,
            end: 0,
            ready: VecDeque::new(alloc),
            loads,
            lane,
        }
    }

    /// How many there are.
    pub fn len(&self) -> usize
        ensures { result ≡ slab_len self.now.slab }
    {
        self.slab.len()
    }

    /// Whether there is none.
    pub fn is_empty(&self) -> bool {
        self.slab.is_empty()
    }

    /// What came and went on the connections of all lanes.
    pub fn traffic(&self) -> &Traffic {
        &self.loads.traffic
    }

    /// Whether as many as may be are open, or more.
    pub fn is_at_limit(&self) -> bool
        ensures { IsFalse result → slab_len self.now.slab < self.now.limit }
    {
        self.slab.len() >= self.limit
    }

    /// From when on a connection is taken that may wait since a moment: at once by the lane that has the fewest, and by
    /// those that have an eighth more at most, so that the one that has least to do takes it; by another the sooner the
    /// fewer more it has. One that has no room for it leaves it to the others for a while.
    pub fn takes_from(&self, since: u64) -> u64 {
        if self.is_at_limit() {
            return since.saturating_add(NAP);
        }
        // Looked at anew each time: where other lanes' connections have left this one waits the longer (D-170).
        taken_from(self.slab.len() as u64, self.loads.least(), since)
    }

    /// Whether more are open than may be.
    pub fn is_beyond_limit(&self) -> bool
        ensures { IsFalse result → slab_len self.now.slab ≤ self.now.limit }
    {
        self.slab.len() > self.limit
    }

    /// The link at this place.
    pub fn get(&self, place: usize) -> Option<&ConnectionSocket> {
        self.slab.get(place)
    }

    /// The same, to be changed.
    pub fn get_mut(&mut self, place: usize) -> Option<&mut ConnectionSocket> {
        self.slab.get_mut(place)
    }

    /// The place of the next one.
    pub fn next_place(&self) -> usize {
        self.slab.vacant_key()
    }

    /// One more, and its place. `None`: there is no memory for it, or more are open than may be.
    pub fn insert(&mut self, link: ConnectionSocket) -> Option<usize>
        ensures room { IfSome result (λ _. slab_len self.new.slab ≤ self.new.limit + 1) }
        ensures limit { self.new.limit ≡ self.old.limit }
        ensures stay { AllStay self.old.slab self.new.slab }
    {
        if self.is_beyond_limit() {
            return None;
        }
        let place = self.slab.insert(link).ok()?;
        self.end = self.end.max(place.saturating_add(1));
        self.loads.set(self.lane, self.slab.len());
        Some(place)
    }

    /// The connection of the link at this place had a turn; where that ended it, how it goes on. `None`: there is no link.
    /// `Err`: there is no memory to keep what is to be sent, and the key is that of the connection.
    pub fn turned(
        &mut self,
        place: usize,
        turn: &TurnResult<'_>,
    ) -> Option<Result<Option<SocketStep>, usize>>
        ensures put { IfSome result (λ put. IfOk put (λ _. PutsText place turn.now.text.now turn.now.end self.old.slab self.new.slab)) }
        ensures kept { IfSome result (λ put. IfErr put (λ _. SendTheSame self.old.slab self.new.slab)) }
        ensures none { IfNone result (SendTheSame self.old.slab self.new.slab × (unsent self.old.slab place ≡ None)) }
        ensures limit { self.new.limit ≡ self.old.limit }
    {
        let link = self.slab.get_mut(place)?;
        let key = link.key;
        match link.turned(turn) {
            Ok(step) => Some(Ok(step)),
            Err(_) => Some(Err(key)),
        }
    }

    /// Closes the socket at this place.
    pub fn remove(&mut self, place: usize)
        ensures limit { self.new.limit ≡ self.old.limit }
        ensures gone { unsent self.new.slab place ≡ None }
        ensures others { (other : ℕ) → other ≢ place → unsent self.new.slab other ≡ unsent self.old.slab other }
    {
        let _ = self.slab.try_remove(place);
        self.loads.set(self.lane, self.slab.len());
    }

    /// The link at this place is to be served.
    pub fn list(&mut self, place: usize)
        ensures limit { self.new.limit ≡ self.old.limit }
        ensures same { SendTheSame self.old.slab self.new.slab }
    {
        let mut is_new = false;
        if let Some(link) = self.slab.get_mut(place) {
            is_new = !link.is_listed;
            link.is_listed = true;
        }
        // What isn't listed for want of memory has its next turn once more comes, or at its deadline.
        if is_new && self.ready.push_back(place).is_err() {
            self.unlist(place);
        }
    }

    fn unlist(&mut self, place: usize)
        ensures limit { self.new.limit ≡ self.old.limit }
        ensures same { SendTheSame self.old.slab self.new.slab }
    {
        if let Some(link) = self.slab.get_mut(place) {
            link.is_listed = false;
        }
    }

    /// The place of the next of those that are to be served, which it is no more.
    pub fn next_ready(&mut self) -> Option<usize>
        ensures limit { self.new.limit ≡ self.old.limit }
    {
        let place = self.ready.pop_front()?;
        self.unlist(place);
        Some(place)
    }

    /// How many are to be served.
    pub fn ready_count(&self) -> usize {
        self.ready.len()
    }

    /// The place and the key of the connection that has been idle longest, of those that would be idle too long by this
    /// moment.
    pub fn idle_longest(&self, by: u64) -> Option<(usize, usize)> {
        let mut found = None;
        let mut least = by;
        for place in 0..self.end {
            if let Some(link) = self.slab.get(place) {
                let is_idle = link.is_idle && link.phase == Phase::Serving;
                if is_idle && link.outgoing.is_empty() && link.due < least {
                    least = link.due;
                    found = Some((place, link.key));
                }
            }
        }
        found
    }
}

/// From when on a lane with this number of connections takes one that may wait since a moment, where the lane that has
/// the fewest has `least`.
fn taken_from(own: u64, least: u64, since: u64) -> u64
    ensures { result ≡ taken_from own least since }
{
    let fewest = least.saturating_add(least / 8);
    let more = own.saturating_sub(fewest);
    since.saturating_add(more.saturating_mul(PATIENCE).min(MOST_PATIENCE))
}

/// Where too many files are open, at this moment, a connection leaves that would be idle too long by the one that is
/// answered.
pub fn leaves_by(now: u64) -> u64
    ensures { result ≡ leaves_by now }
{
    now.saturating_add(IDLE_LIMIT - GRACE)
}
