//! The spans that were kept of each service.
ghost use Rattle.std.specs.Prelude.{◌≡◌, length, map, slice_index_or, string_bytes, take, IfOk, OnOk, OnErr};
ghost use Rattle.run_comparison.specs.Rows.{spans_of};
ghost use Rattle.run_comparison.specs.Services.{KeepsFront, no_services, with_place, with_span};

use crate::names::place_of;
use crate::numbers::{add_at, zeros};
use std::alloc::{AllocError, Global};
use std::marker::Model;

/// Of how many services a run counts the spans: those of more are counted together.
pub const MOST_SERVICES: usize = 1000;

/// The spans that were kept of each service, in the order in which the first of each was kept.
#[derive(Drop)]
pub struct Services {
    /// The names of those that have a place. There are few, so they stand in a list.
    names: Vec<String>,
    /// Their spans, by their places; those behind the last one are 0.
    spans: Vec<u64>,
    /// The spans of services without a place.
    beyond: u64,
}

impl Model for Services {
    ghost use Rattle.std.specs.Prelude.{map, string_bytes};
    ghost use Rattle.run_comparison.specs.Services.{Services};

    ghost Value = { Services };

    ghost view = { λ s. record { names = map string_bytes s.names.items; spans = s.spans.items; beyond = s.beyond } };
}

impl Services {
    /// No span was kept. `Err` where memory was refused.
    pub fn new(alloc: Global) -> Result<Services, AllocError>
        ensures { IfOk result (λ s. s ≡ no_services) }
    {
        Ok(Services {
            names: Vec::new(alloc),
            spans: zeros(alloc, MOST_SERVICES)?,
            beyond: 0,
        })
    }

    /// How many services have a place.
    pub fn len(&self) -> usize
        ensures { result ≡ length self.now.names }
    {
        self.names.len()
    }

    /// A service gets a place, if it has none and there is room for one more. `Err` where memory was refused: all is as
    /// it was.
    pub fn place(&mut self, name: &str) -> Result<(), AllocError>
        ensures placed { OnOk result (self.new ≡ with_place self.old name.now) }
        ensures front { KeepsFront self.old self.new }
        ensures same { OnErr result (self.new ≡ self.old) }
    {
        if self.names.len() >= MOST_SERVICES || place_of(&self.names, name).is_some() {
            return Ok(());
        }
        let name = String::from_str(*self.names.allocator(), name)?;
        self.names.push(name)?;
        Ok(())
    }

    /// Only the first services keep their places.
    #[tactic(auto, using(crate::proofs::Fronts::names_taken))]
    pub fn truncate(&mut self, len: usize)
        ensures { self.new ≡ record self.old { names = take len self.old.names } }
    {
        self.names.truncate(len);
    }

    /// One span more of a service was kept; it is counted with those of others where the service has no place.
    pub fn add(&mut self, name: &str)
        ensures { self.new ≡ with_span self.old name.now }
    {
        match place_of(&self.names, name) {
            Some(place) => add_at(&mut self.spans, place, 1),
            None => self.beyond = self.beyond.saturating_add(1),
        }
    }

    /// How many spans were kept of the service at a place.
    pub fn spans_at(&self, place: usize) -> u64
        ensures { result ≡ slice_index_or self.now.spans place 0 }
    {
        match self.spans.get(place) {
            Some(spans) => *spans,
            None => 0,
        }
    }

    /// How many spans of a service were kept, where it has a place.
    pub fn spans_of(&self, name: &str) -> u64
        ensures { result ≡ spans_of self.now name.now }
    {
        match place_of(&self.names, name) {
            Some(place) => self.spans_at(place),
            None => 0,
        }
    }

    /// The names of the services that have a place.
    pub fn names(&self) -> &[String]
        ensures { map string_bytes result.now ≡ self.now.names }
    {
        &self.names
    }

    /// Their spans, by their places; those behind the last one are 0.
    pub fn spans(&self) -> &[u64]
        ensures { result.now ≡ self.now.spans }
    {
        &self.spans
    }

    /// How many spans were kept of services without a place.
    pub fn beyond(&self) -> u64
        ensures { result ≡ self.now.beyond }
    {
        self.beyond
    }
}
