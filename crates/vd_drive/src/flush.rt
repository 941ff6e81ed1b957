//! The steps of a flush, one after the other.

ghost use Rattle.std.specs.Prelude.{◌≡◌, ◌≢◌, true};
ghost use Rattle.vd_law.specs.Counts.{Rose};
ghost use Rattle.vd_device.specs.Stores.{IsTold, KeepsStore};
ghost use Rattle.vd_passes.specs.declared.pass.Phase.TheVariants.{Idle, Flushing};
ghost use Rattle.vd_passes.specs.Steps.{IsAt};
ghost use Rattle.vd_machine.specs.Attending.{KeeperAgrees};
ghost use Rattle.vd_machine.specs.Steps.{IsStep};
ghost use Rattle.vd_core.specs.declared.outcome.Step.TheVariants.{Late};
ghost use Rattle.vd_drive.specs.Drivers.{FlusherStep, GoesOnWithFlush, LeavesDisk};
ghost use Rattle.vd_drive.specs.Driving.{DrivesFlush, flush_work_of};

use vd_core::{Begun, Core, Step};
use vd_device::{Base, Store};
use vd_keeper::{Route, Stage};
use vd_passes::pass::Phase;

/// Makes the next step of the flush under way, which is this pass's.
fn go_on<S: Store, B: Base>(core: &mut Core<S, B>, pass: u32) -> Step
    requires phase { IsAt core.old.passes pass (λ p. p.phase ≡ Flushing) }
    requires attended { KeeperAgrees core.old.shape core.old.table core.old.fresh core.old.passes core.old.flusher core.old.keeping }
    requires told { IsTold S.Store core.old.store }
    ensures makes { GoesOnWithFlush S.Store result pass core.old core.new }
    ensures step { IsStep S.Store B.Base pass core.old core.new }
    ensures drives { DrivesFlush result pass (flush_work_of core.old) (flush_work_of core.new) }
    ensures late { result ≡ Late → Rose (S.late core.old.store) (S.late core.new.store) }
    ensures leaves { LeavesDisk core.old core.new }
    ensures fresh { core.new.fresh ≡ core.old.fresh }
    ensures keeps { KeepsStore S.Store core.old.store core.new.store }
    ensures base { core.new.base ≡ core.old.base }
{
    if core.is_waiting(pass) {
        return core.settle_meta(pass);
    }
    match core.stage() {
        Stage::Puts => {
            core.put(pass);
            Step::Again
        }
        Stage::Syncs => {
            core.sync(pass);
            Step::Again
        }
        Stage::Seals => {
            core.seal(pass);
            Step::Again
        }
        Stage::Rest | Stage::DataFlush | Stage::Broken => unreachable!(),
    }
}

/// Drives the flushes of a core.
pub struct Flusher;

impl Flusher {
    /// Makes the one step that a pass with a flush calls for. Late and Busy change nothing but the number of steps and, for Late, the
    /// store's count of late calls; every other step leaves the pass with fewer steps to its reply. Busy comes exactly where another
    /// pass's flush is under way, and names that pass. A flush is begun by what is owed, and Worn comes exactly where that needs a recycle
    /// at the last generation.
    pub fn next<S: Store, B: Base>(core: &mut Core<S, B>, pass: u32) -> Step
        requires busy { IsAt core.old.passes pass (λ p. (p.phase ≢ Idle) × (p.flush ≡ true)) }
        ensures makes { IsAt core.old.passes pass (λ p. FlusherStep S.Store p.phase result pass core.old core.new) }
        ensures step { IsStep S.Store B.Base pass core.old core.new }
        ensures drives { DrivesFlush result pass (flush_work_of core.old) (flush_work_of core.new) }
        ensures late { result ≡ Late → Rose (S.late core.old.store) (S.late core.new.store) }
        ensures leaves { LeavesDisk core.old core.new }
        ensures fresh { core.new.fresh ≡ core.old.fresh }
        ensures keeps { KeepsStore S.Store core.old.store core.new.store }
        ensures base { core.new.base ≡ core.old.base }
    {
        match core.phase(pass) {
            Phase::Asked => match core.begin_flush(pass, Route::Owed) {
                Begun::Going | Begun::Worn => Step::Again,
                Begun::Busy { by } => Step::Busy { by },
            },
            Phase::Flushing => go_on(core, pass),
            Phase::Ready => Step::Ended(core.reply(pass)),
            Phase::Idle
            | Phase::Held
            | Phase::Fetching
            | Phase::Filled
            | Phase::Issuing
            | Phase::Looking => unreachable!(),
        }
    }
}
