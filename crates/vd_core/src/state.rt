//! The core's parts, and what its type keeps.

ghost use Rattle.std.specs.Prelude.{◌≡◌, ◌<◌, ◌↔◌, IsTrue, true, length, Some, is_some, slice_get};
ghost use Rattle.vd_format.specs.Headers.{IsValid};
ghost use Rattle.vd_image.specs.Image.{geometry_of};
ghost use Rattle.vd_passes.specs.declared.pass.Phase.TheVariants.{Flushing};
ghost use Rattle.vd_machine.specs.Attending.{KeeperAgrees};
ghost use Rattle.vd_machine.specs.Views.{one_step_more as after_one_more};
ghost use Rattle.vd_core.specs.History.{IsHistoryOf};
ghost use Rattle.vd_passes.specs.Passes.{has_region};
ghost use Rattle.vd_machine.specs.Phases.{IsInPhase};
ghost use Rattle.vd_passes.specs.Steps.{IsAt};
ghost use Rattle.vd_device.specs.Stores.{IsTold};
ghost use Rattle.vd_passes.specs.declared.pass.Pass.{Pass as AnyPass};

use std::marker::Model;
use std::snapshot::Snapshot;
use vd_device::{Base, Store};
use vd_format::Header;
use vd_keeper::{Keeper, Stage};
use vd_law::entry::Room;
use vd_log::history::History;
use vd_passes::pass::{Pass, Phase};
use vd_passes::shape::Shape;
use vd_regions::regions::Regions;
use vd_replay::State;

/// A disk over a store and a base, with a pass for each caller. Each call of a pass is one step; whatever the order of the
/// steps and whatever the devices answer, the history is a legal one of a flat disk.
pub struct Core<S: Store, B: Base> {
    pub(crate) store: S,
    pub(crate) base: B,
    pub(crate) shape: Shape,
    /// As it was opened, but for the table and the local blocks, which are those of now.
    pub(crate) state: State,
    pub(crate) keeper: Keeper,
    /// The pass whose flush is under way.
    pub(crate) flusher: Option<u32>,
    pub(crate) regions: Regions,
    pub(crate) passes: Vec<Pass>,
    pub(crate) history: History,
    pub(crate) spare: Room,
    /// The room with which the history was made.
    pub(crate) room: Room,
    /// How many steps were made, up to the greatest u64.
    pub(crate) steps: u64,
    /// The devices as they stood when the core was made, for clauses alone.
    pub(crate) begun_store: Snapshot<S>,
    pub(crate) begun_base: Snapshot<B>,
}

/// The number of steps after one more: it stands still at the greatest u64.
pub(crate) fn one_more(steps: u64) -> u64
    ensures { result ≡ after_one_more steps }
{
    steps.saturating_add(1)
}

impl<S: Store, B: Base> Model for Core<S, B> {
    ghost use Rattle.vd_machine.specs.Views.{View};

    ghost Value = { View S B };

    ghost use Rattle.std.specs.Prelude.{◌≡◌, map};
    ghost use Rattle.vd_passes.specs.Passes.{region_of};
    ghost use Rattle.vd_replay.specs.States.{IsSized};
    ghost use Rattle.vd_core.specs.Kept.{IsWellKept};

    ghost view = { λ c. record {
      fixed = record { store = c.begun_store.value; base = c.begun_base.value; header = c.state.header; entries = c.state.map; room = c.room };
      store = c.store;
      base = c.base;
      shape = c.shape;
      table = c.state.table;
      fresh = c.state.fresh.bits;
      keeping = c.keeper;
      flusher = c.flusher;
      passes = c.passes.items;
      history = c.history;
      spare = c.spare;
      steps = c.steps;
    } };

    // Beside what its parts keep, whom the regions belong to, and that the state can be read again.
    ghost invariant = { λ c. IsWellKept S.Store B.Base (view c) × (c.regions ≡ map region_of c.passes.items) × IsSized c.state };
}

impl<S: Store, B: Base> Core<S, B> {
    /// What this pass does next.
    pub fn phase(&self, pass: u32) -> Phase
        requires { pass < length self.now.passes }
        ensures phase { (p : AnyPass) → slice_get self.now.passes pass ≡ Some p → result ≡ p.phase }
        ensures stands { (p : AnyPass) → slice_get self.now.passes pass ≡ Some p → IsInPhase self.now.shape p }
        ensures attended { KeeperAgrees self.now.shape self.now.table self.now.fresh self.now.passes self.now.flusher self.now.keeping }
        ensures told { IsTold S.Store self.now.store }
    {
        self.passes[pass as usize].phase
    }

    /// All that was asked, done and replied since the core was opened.
    pub fn history(&self) -> &History
        ensures history { result.now ≡ self.now.history }
        ensures known { IsHistoryOf S.Store B.Base self.now }
    {
        // For what its clause says alone: a store that tells logs.
        let _flight = self.store.in_flight();
        &self.history
    }

    /// The room in the history that is neither used nor reserved.
    pub fn left(&self) -> Room
        ensures { result ≡ self.now.spare }
    {
        self.spare
    }

    /// Whether the block of the piece that a pass is at is local now.
    pub fn is_fresh(&self, pass: u32) -> bool
        requires { IsAt self.now.passes pass (λ p. has_region p.phase ≡ true) }
        ensures { IsAt self.now.passes pass (λ p. slice_get self.now.fresh p.block ≡ Some result) }
    {
        let block = self.passes[pass as usize].block;
        self.state.fresh.get(block as u32)
    }

    /// Whether a pass whose flush is under way has a call in flight.
    pub fn is_waiting(&self, pass: u32) -> bool
        requires { IsAt self.now.passes pass (λ p. p.phase ≡ Flushing) }
        ensures { IsAt self.now.passes pass (λ p. result ≡ is_some p.ticket) }
    {
        self.passes[pass as usize].ticket.is_some()
    }

    /// How far the flush under way has come.
    pub fn stage(&self) -> Stage
        ensures { result ≡ self.now.keeping.stage }
    {
        self.keeper.stage()
    }

    /// The image's header, as every image has it since the last flush that wrote one.
    pub fn header(&self) -> Header
        ensures header { result ≡ self.now.keeping.header }
        ensures valid { IsValid result }
        ensures same { geometry_of result ≡ geometry_of self.now.fixed.header }
    {
        self.keeper.header()
    }

    /// Whether the piece that a pass is at is the whole of its block.
    pub fn is_whole(&self, pass: u32) -> bool
        requires { pass < length self.now.passes }
        ensures { (p : AnyPass) → slice_get self.now.passes pass ≡ Some p → IsTrue result ↔ (p.piece ≡ self.now.shape.block) }
    {
        self.passes[pass as usize].piece == self.shape.block
    }
}
