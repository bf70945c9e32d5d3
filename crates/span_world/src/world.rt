//! The core as a value: lanes, shards, and what was handed over and counted.
ghost use Rattle.std.specs.Prelude.{◌≡◌, ◌≢◌, ◌∷◌, [], replicate, Some, IfOk, length};
ghost use Rattle.world_theory.specs.World.{new_world, new_lane, new_shard, KeepsATrace};
ghost use Rattle.shard_journal.specs.Settings.{settings_of};
ghost use Rattle.shard_journal.specs.Look.{look_of};
ghost use Rattle.span_world.specs.Core.{config_of, with_senders};

use crate::config::CoreConfig;
use crate::lane::CoreLane;
use crate::shard::CoreShard;
use otlp_types::{Arrival, List};
use policy_eval::{Searches, searches_for};
use shard_journal::{DroppedSpan, LookBack, Settings};
use std::alloc::{AllocError, Global};
use std::collections::VecDeque;
use std::marker::Model;

/// The world of the core: its lanes, its shards, and the exporter. It keeps the lists of the definition, and looks back
/// over a shard's journal for what the shard does.
#[derive(Drop)]
pub struct World {
    pub(crate) alloc: Global,
    pub(crate) settings: Settings,
    /// For the expressions of the policies, so that whether a decision is enabled takes no memory that can be refused.
    pub(crate) searches: Searches,
    pub(crate) batch_size: usize,
    pub(crate) lanes: Vec<CoreLane>,
    pub(crate) shards: Vec<CoreShard>,
    /// What looking back over each shard's journal found, so that whether a step is enabled takes no memory that can be
    /// refused.
    pub(crate) looks: Vec<LookBack>,
    pub(crate) exported: VecDeque<Arrival>,
    pub(crate) batch: Vec<Arrival>,
    pub(crate) handed: Vec<List<Arrival>>,
    pub(crate) counted: Vec<DroppedSpan>,
    pub(crate) down: bool,
}

impl Model for World {
    ghost use Rattle.std.specs.Prelude.{◌≡◌, ◌+◌, true, length};
    ghost use Rattle.policy_eval.specs.Searches.{are_known};
    ghost use Rattle.policy_tree.specs.Expressions.{expressions_in};
    ghost use Rattle.policy_tree.specs.Meaning.{meaning};
    ghost use Rattle.shard_journal.specs.Settings.{settings_of};
    ghost use Rattle.span_world.specs.Core.{Core, LooksBack};
    ghost use Rattle.std.specs.Coded.{codes};
    ghost use Rattle.otlp_types.specs.contracts.value.AnyValue as any_value;
    ghost use Rattle.policy_tree.specs.contracts.policy.PolicyKind as kind;

    ghost Value = { Core };

    ghost coded = { Prim.hlevel (codes, any_value.the_row.coded, kind.the_row.coded) };

    ghost view = { λ w. record {
      config = record { shard = w.settings; batch_size = w.batch_size };
      world = record { lanes = w.lanes.items; shards = w.shards.items; exported = w.exported.items; batch = w.batch.items; handed = w.handed.items; counted = w.counted.items; down = w.down };
    } };

    ghost invariant = { λ w. (w.settings.senders ≡ length w.lanes.items + 1) × LooksBack (settings_of w.settings) w.shards.items w.looks.items × (are_known w.searches (expressions_in (meaning w.settings.policies)) ≡ true) };
}

impl World {
    /// A world that has made no step, with so many lanes and shards. A configuration keeps a trace where its limit is
    /// at least 1. `Err` where memory was refused, or an expression of the policies is none.
    pub fn new(
        alloc: Global,
        lanes: u16,
        shards: usize,
        config: CoreConfig,
    ) -> Result<World, AllocError>
        requires { KeepsATrace (config_of config) }
        ensures config { IfOk result (λ w. w.config ≡ with_senders lanes config) }
        ensures world { IfOk result (λ w. w.world ≡ new_world lanes shards) }
    {
        let CoreConfig { shard, batch_size } = config;
        let mut settings = shard;
        settings.senders = lanes as usize + 1;
        let searches = searches_for(alloc, &settings.policies)?;
        let (shards, looks) = new_shards(alloc, &settings, shards)?;
        Ok(World {
            alloc,
            settings,
            searches,
            batch_size,
            lanes: new_lanes(alloc, lanes as usize)?,
            shards,
            looks,
            exported: VecDeque::new(alloc),
            batch: Vec::new(alloc),
            handed: Vec::new(alloc),
            counted: Vec::new(alloc),
            down: false,
        })
    }

    /// The batches that were handed over, in order.
    pub fn handed(&self) -> &[List<Arrival>]
        ensures { result.now ≡ self.now.world.handed }
    {
        self.handed.as_slice()
    }

    /// The spans that were counted, in order, each with its reason.
    pub fn counted(&self) -> &[DroppedSpan]
        ensures { result.now ≡ self.now.world.counted }
    {
        self.counted.as_slice()
    }

    /// The open batch: the spans that were pulled and not handed over yet, in order.
    pub fn batch(&self) -> &[Arrival]
        ensures { result.now ≡ self.now.world.batch }
    {
        self.batch.as_slice()
    }

    /// How many spans were shipped and not pulled yet.
    pub fn exported(&self) -> usize
        ensures { result ≡ length self.now.world.exported }
    {
        self.exported.len()
    }

    /// Whether the sink failed.
    pub fn is_down(&self) -> bool
        ensures { result ≡ self.now.world.down }
    {
        self.down
    }
}

/// So many lanes that have received nothing.
fn new_lanes(alloc: Global, number: usize) -> Result<Vec<CoreLane>, AllocError>
    ensures { IfOk result (λ lanes. lanes.items ≡ replicate number new_lane) }
{
    let mut lanes = Vec::with_capacity(alloc, number)?;
    for _i in 0..number {
        lanes.push(CoreLane::new(alloc))?;
    }
    Ok(lanes)
}

/// So many shards that have taken nothing, and what looking back over the journal of each finds.
fn new_shards(
    alloc: Global,
    settings: &Settings,
    number: usize,
) -> Result<(Vec<CoreShard>, Vec<LookBack>), AllocError>
    ensures shards { IfOk result (λ made. made.0.items ≡ replicate number new_shard) }
    ensures looks { IfOk result (λ made. made.1.items ≡ replicate number (look_of (settings_of settings.now) [])) }
{
    let mut shards = Vec::with_capacity(alloc, number)?;
    let mut looks = Vec::with_capacity(alloc, number)?;
    for _i in 0..number {
        looks.push(LookBack::new(alloc, settings, &[])?)?;
        shards.push(CoreShard::new(alloc))?;
    }
    Ok((shards, looks))
}
