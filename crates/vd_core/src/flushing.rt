//! The steps of a flush: what was owed is logged, and made durable.

ghost use Rattle.std.specs.Prelude.{ℕ, ◌≡◌, ◌<◌, Some, slice_get};
ghost use Rattle.vd_device.specs.declared.settled.Settled.{Settled as AnySettled};
ghost use Rattle.vd_format.specs.Headers.{IsValid};
ghost use Rattle.vd_format.specs.Layouts.{storage_start};
ghost use Rattle.vd_keeper.specs.declared.stage.Stage.TheVariants.{Puts, Syncs, Seals};
ghost use Rattle.vd_passes.specs.declared.pass.Pass.{Pass as AnyPass};
ghost use Rattle.vd_passes.specs.declared.pass.Phase.TheVariants.{Idle};
ghost use Rattle.vd_passes.specs.Steps.{IsAt};
ghost use Rattle.vd_machine.specs.Flushing.{place_of_put, put_sector};
ghost use Rattle.vd_machine.specs.Outcomes.{outcome_of};
ghost use Rattle.vd_machine.specs.FlushSteps.{HasAskedFlush, IsBetween, IsAway, KeepsTracked, FlushKeptOutStep, BeginFlushStep, WearStep, PutStep, SyncStep, SettleMetaStep, SealStep, AdoptStep};
ghost use Rattle.vd_core.specs.Outcomes.{step_of};
ghost use Rattle.vd_core.specs.declared.flushing.Begun.TheVariants.{Going, Busy, Worn};

use crate::outcome::Step;
use crate::state::{Core, one_more};
use vd_device::{Base, Settled, Store};
use vd_format::{Header, layout_of};
use vd_keeper::{Put, Route};
use vd_law::entry::Sector;
use vd_passes::pass::Fault;

/// How the beginning of a flush was answered.
#[derive(Clone, Copy, PartialEq, Eq, Drop)]
pub enum Begun {
    /// It is under way.
    Going,
    /// The flush of this pass is under way; nothing changed.
    Busy { by: u32 },
    /// A recycle is needed, and the generation is the last. The pass is ready to answer so, and no call was made.
    Worn,
}

/// The sector of the store that is written, and its content.
fn placed(header: &Header, put: Put) -> (u64, Sector)
    requires valid { IsValid header.now }
    requires inside { place_of_put header.now put < storage_start header.now }
    ensures at { result.0 ≡ place_of_put header.now put }
    ensures sector { result.1 ≡ put_sector put }
{
    let layout = layout_of(header);
    match put {
        Put::Record { slot, sector } => (layout.slots_at + u64::from(slot), sector),
        Put::Page { at, sector } => (layout.spare_at + at, sector),
        Put::Head { sector } => (0, sector),
    }
}

impl<S: Store, B: Base> Core<S, B> {
    /// Begins the flush that a pass has asked: what is owed is its snapshot, and the store's flush of what the guests wrote is submitted
    /// in the same step. Busy comes exactly where another pass's flush is under way, Worn exactly where a recycle is needed at
    /// the last generation. A recycle that is asked for leaves the tracked part as it is.
    pub fn begin_flush(&mut self, pass: u32, route: Route) -> Begun
        requires phase { IsAt self.old.passes pass HasAskedFlush }
        requires tracked { KeepsTracked route self.old }
        ensures busy { (by : ℕ) → result ≡ Busy by → FlushKeptOutStep by pass self.old self.new }
        ensures going { result ≡ Going → BeginFlushStep S.Store route pass self.old self.new }
        ensures worn { result ≡ Worn → WearStep route pass self.old self.new }
    {
        self.steps = one_more(self.steps);
        if let Some(by) = self.flusher {
            return Begun::Busy { by };
        }
        if !self.keeper.begin(route) {
            let fault = Fault::Worn(self.keeper.header().generation);
            self.passes[pass as usize].end_flush(Some(fault));
            return Begun::Worn;
        }
        // Before any record or sector of the map is put: only a block whose data is durable is ever logged.
        let ticket = self.store.submit_flush();
        self.passes[pass as usize].begin_meta(ticket);
        self.flusher = Some(pass);
        Begun::Going
    }

    /// Submits what the flush under way puts next: a record, a sector of the map or the header.
    pub fn put(&mut self, pass: u32)
        requires phase { IsAt self.old.passes pass IsBetween }
        requires stage { self.old.keeping.stage ≡ Puts }
        ensures puts { PutStep S.Store pass self.old self.new }
    {
        self.steps = one_more(self.steps);
        let header = self.keeper.header();
        let put = self.keeper.put(&self.state.table);
        let (at, sector) = placed(&header, put);
        let ticket = self.store.submit_write(at, &[sector]);
        self.passes[pass as usize].begin_meta(ticket);
    }

    /// Submits the store's flush of what was put.
    pub fn sync(&mut self, pass: u32)
        requires phase { IsAt self.old.passes pass IsBetween }
        requires stage { self.old.keeping.stage ≡ Syncs }
        ensures syncs { SyncStep S.Store pass self.old self.new }
    {
        self.steps = one_more(self.steps);
        // Sectors of the map are durable before the header that counts on them, and records and the header before the seal.
        let ticket = self.store.submit_flush();
        self.passes[pass as usize].begin_meta(ticket);
    }

    /// Settles the call of the flush under way that is in flight. Where it failed the flush is given up: what was owed is owed still,
    /// and the pass is ready with a store fault.
    pub fn settle_meta(&mut self, pass: u32) -> Step
        requires phase { IsAt self.old.passes pass IsAway }
        ensures settles { (answer : AnySettled) × (result ≡ step_of (outcome_of answer)) × SettleMetaStep S.Store answer pass self.old self.new }
    {
        self.steps = one_more(self.steps);
        let ticket = self.passes[pass as usize].take_ticket();
        match self.store.settle(ticket, &mut []) {
            Settled::Done => {
                self.keeper.settled(true);
                Step::Again
            }
            Settled::NotYet(ticket) => {
                self.passes[pass as usize].put_ticket(ticket);
                Step::Late
            }
            Settled::Failed(number) => {
                self.keeper.settled(false);
                self.passes[pass as usize].fail(Fault::Store(number));
                self.flusher = None;
                Step::Again
            }
        }
    }

    /// Ends the flush under way: every image has its blocks from now on, and its pass is ready.
    pub fn seal(&mut self, pass: u32)
        requires phase { IsAt self.old.passes pass IsBetween }
        requires stage { self.old.keeping.stage ≡ Seals }
        ensures seals { SealStep pass self.old self.new }
    {
        self.steps = one_more(self.steps);
        self.keeper.seal();
        self.passes[pass as usize].end_flush(None);
        self.flusher = None;
    }

    /// Puts every local block that not every image has into those that the next flush logs, while all passes are idle. It costs the
    /// whole bitmap.
    pub fn adopt(&mut self)
        requires idle { (i : ℕ) (p : AnyPass) → slice_get self.old.passes i ≡ Some p → p.phase ≡ Idle }
        ensures adopts { AdoptStep self.old self.new }
    {
        self.steps = one_more(self.steps);
        self.keeper.adopt(&self.state.fresh);
    }
}
