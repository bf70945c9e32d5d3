//! The spans that were kept over time.
ghost use Rattle.std.specs.Prelude.{◌≡◌, ◌<◌, length, IfOk};
ghost use Rattle.run_comparison.specs.Timeline.{begin_of, counts_of, covering, least_doubling, no_steps, range_of, reaching, regridded, steps_between, width_for, with_spans_at};

use crate::numbers::{add_at, clear, zeros};
use std::alloc::{AllocError, Global};
use std::marker::Model;
use std::mem;

/// The shortest step, in milliseconds.
pub const LEAST_STEP: u64 = 1000;

/// How many steps there are at most.
pub const MOST_STEPS: usize = 512;

/// How often the shortest step can be doubled: then any two moments are fewer than 512 steps apart.
pub const DOUBLINGS: u32 = 46;

/// How many spans were kept in steps of the same width, which are as many as there are from the earliest moment to the
/// latest. A step begins at a multiple of its width.
#[derive(Drop)]
pub struct Steps {
    /// Whether a moment was told.
    any: bool,
    /// The earliest moment, in milliseconds.
    from: u64,
    /// The latest moment.
    to: u64,
    /// The width of a step, in milliseconds.
    width: u64,
    /// The spans of each step, from that of the earliest moment on; those behind the last one are 0.
    counts: Vec<u64>,
    /// As many numbers, in which they are counted anew where the width changes.
    spare: Vec<u64>,
}

impl Model for Steps {
    ghost use Rattle.std.specs.Prelude.{◌≡◌, ◌<◌, length};
    ghost use Rattle.run_comparison.specs.Timeline.{Timeline};

    ghost Value = { Timeline };

    ghost view = { λ s. record { any = s.any; from = s.from; to = s.to; width = s.width; counts = s.counts.items } };

    ghost invariant = { λ s. (0 < s.width) × (length s.counts.items ≡ 512) × (length s.spare.items ≡ 512) };
}

/// How many steps of a width a moment is behind an earlier one.
fn steps_between(from: u64, moment: u64, width: u64) -> u64
    requires { 0 < width }
    ensures { result ≡ steps_between from moment width }
{
    (moment / width).saturating_sub(from / width)
}

/// The least of a width and so many of its doublings by which two moments are fewer than the most steps apart, or else the
/// last of them.
#[tactic(auto, using(crate::proofs::Widths::least_here, crate::proofs::Widths::least_later, crate::proofs::Widths::least_last))]
fn least_doubling(doublings: u32, from: u64, to: u64, width: u64) -> u64
    requires { 0 < width }
    ensures width { result ≡ least_doubling doublings from to width }
    ensures positive { 0 < result }
{
    let mut wide = width;
    let mut left = doublings;
    'doublings: while left > 0 {
        if steps_between(from, to, wide) < 512 {
            return wide;
        }
        wide = wide.saturating_mul(2);
        left -= 1;
    }
    wide
}

/// The width of steps from one moment to another: the least, of the shortest one and its doublings, by which the moments
/// are fewer than the most steps apart.
pub fn width_for(from: u64, to: u64) -> u64
    ensures width { result ≡ width_for from to }
    ensures positive { 0 < result }
{
    least_doubling(DOUBLINGS, from, to, LEAST_STEP)
}

/// The spans of steps of one width, of which the first has this number, go into steps of another width, the first of
/// which is that of a moment.
fn regrid(earlier: &[u64], first: u64, width: u64, from: u64, wider: u64, counts: &mut [u64])
    requires { 0 < wider }
    ensures counts { counts.new ≡ regridded earlier.now first width from wider counts.old }
    ensures long { length counts.new ≡ length counts.old }
{
    let mut number = first;
    for spans in earlier {
        let step = steps_between(from, number.saturating_mul(width), wider);
        add_at(counts, step as usize, *spans);
        number = number.saturating_add(1);
    }
}

impl Steps {
    /// No span was kept. `Err` where memory was refused.
    pub fn new(alloc: Global) -> Result<Steps, AllocError>
        ensures { IfOk result (λ s. s ≡ no_steps) }
    {
        let counts = zeros(alloc, MOST_STEPS)?;
        let spare = zeros(alloc, MOST_STEPS)?;
        Ok(Steps {
            any: false,
            from: 0,
            to: 0,
            width: LEAST_STEP,
            counts,
            spare,
        })
    }

    /// The same again.
    pub fn try_clone(&self, alloc: Global) -> Result<Steps, AllocError>
        ensures { IfOk result (λ s. s ≡ self.now) }
    {
        let mut counts = zeros(alloc, MOST_STEPS)?;
        counts.copy_from_slice(&self.counts);
        let spare = zeros(alloc, MOST_STEPS)?;
        Ok(Steps {
            any: self.any,
            from: self.from,
            to: self.to,
            width: self.width,
            counts,
            spare,
        })
    }

    /// The steps reach from one moment to another too, in which nothing was kept.
    pub fn cover(&mut self, from: u64, to: u64)
        ensures { self.new ≡ covering self.old from to }
    {
        if !self.any {
            self.any = true;
            self.from = from;
            self.to = to;
            self.width = width_for(from, to);
            return;
        }
        let from = self.from.min(from);
        let to = self.to.max(to);
        let wider = width_for(from, to);
        let first = self.from / self.width;
        clear(&mut self.spare);
        regrid(
            &self.counts,
            first,
            self.width,
            from,
            wider,
            &mut self.spare,
        );
        mem::swap(&mut self.counts, &mut self.spare);
        self.from = from;
        self.to = to;
        self.width = wider;
    }

    /// The steps reach a moment.
    fn reach(&mut self, moment: u64)
        ensures { self.new ≡ reaching self.old moment }
    {
        if !self.any || (moment < self.from || self.to < moment) {
            self.cover(moment, moment);
        }
    }

    /// So many spans were kept at a moment.
    pub fn add(&mut self, moment: u64, spans: u64)
        ensures { self.new ≡ with_spans_at self.old moment spans }
    {
        if spans == 0 {
            return;
        }
        self.reach(moment);
        let step = steps_between(self.from, moment, self.width);
        add_at(&mut self.counts, step as usize, spans);
    }

    /// When the first step begins, in milliseconds.
    pub fn begin(&self) -> u64
        ensures { result ≡ begin_of self.now }
    {
        (self.from / self.width).saturating_mul(self.width)
    }

    /// The width of a step, in milliseconds.
    pub fn width(&self) -> u64
        ensures { result ≡ self.now.width }
    {
        self.width
    }

    /// The spans of each step, from that of the earliest moment to that of the latest.
    pub fn counts(&self) -> &[u64]
        ensures { result.now ≡ counts_of self.now }
    {
        if !self.any {
            return &[];
        }
        let last = steps_between(self.from, self.to, self.width) as usize;
        if last < self.counts.len() {
            &self.counts[..last + 1]
        } else {
            &self.counts
        }
    }

    /// The earliest and the latest moment, where one was told.
    pub fn range(&self) -> Option<(u64, u64)>
        ensures { result ≡ range_of self.now }
    {
        if self.any {
            Some((self.from, self.to))
        } else {
            None
        }
    }
}
