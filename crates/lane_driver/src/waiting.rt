//! What a driver does between two rounds.
use crate::driver::TurnDriver;
use crate::readiness::{EVENTS, NAP, Ready};
use crate::rounds::RoundKeeper;
use http_lane::HasStopMark;
use std::sync::Wait;
use std::time::Clock;

/// The longest time that requests under way have once the mark to stop is set, in milliseconds (D-177).
const STOP_LIMIT: u64 = 1_000;

impl<'l, P: HasStopMark, K: RoundKeeper> TurnDriver<'l, P, K> {
    /// Waits until something is ready, or the next deadline, `NAP` at most: so no thread has to wake another (D-176).
    pub(crate) fn wait<R: Wait + Clock>(&mut self, rt: &R) {
        self.end_round(rt);
        let mut limit = self.walk.next.saturating_sub(self.now).min(NAP);
        if self.may_take {
            limit = limit.min(self.links.takes_from(self.since).saturating_sub(self.now));
        }
        if self.links.ready_count() > 0 {
            limit = 0;
        }
        self.readiness.wait(limit);
        self.keeper.begin(rt);
        self.is_inside = true;
        self.now = self.readiness.moment(rt).unwrap_or(self.now);
        self.list_ready();
        if self.stop.is_set() && self.stopping.is_none() {
            self.stopping = Some(self.now.saturating_add(STOP_LIMIT));
            self.may_take = true;
        }
        if self.may_take && self.now >= self.links.takes_from(self.since) {
            self.to_take = (self.links.len() / 8).saturating_add(1);
        }
        self.to_serve = self.links.ready_count();
        self.walk.begin_if_due(self.now);
        if self.stopping.is_some() {
            self.walk.comes_by(self.now.saturating_add(NAP));
        }
    }

    /// The round under way ends: what its answers promise is made to outlive a crash, where they wait for that.
    pub(crate) fn end_round<R: Wait + Clock>(&mut self, rt: &R) {
        if self.rounds.waits {
            let is_committed = self.keeper.commit(rt, self.lane);
            self.rounds.end(is_committed);
        }
        if self.is_inside {
            self.keeper.end();
            self.is_inside = false;
        }
    }

    /// Those that were found ready are to be served.
    fn list_ready(&mut self) {
        for _ in 0..EVENTS {
            match self.readiness.next() {
                Some(Ready::Listener) => {
                    if !self.may_take {
                        self.since = self.now;
                    }
                    self.may_take = true;
                }
                Some(Ready::Place(place)) => self.links.list(place),
                None => return,
            }
        }
    }
}
