//! The steps of a write, one after the other.

ghost use Rattle.std.specs.Prelude.{◌≡◌, ◌≢◌, ◌⊎◌, true, false};
ghost use Rattle.vd_law.specs.Counts.{Rose};
ghost use Rattle.vd_device.specs.Stores.{KeepsStore};
ghost use Rattle.vd_device.specs.Bases.{KeepsBase};
ghost use Rattle.vd_passes.specs.declared.pass.Phase.TheVariants.{Idle};
ghost use Rattle.vd_passes.specs.Steps.{IsAt, HasAskedWrite};
ghost use Rattle.vd_machine.specs.Steps.{IsStep};
ghost use Rattle.vd_core.specs.declared.outcome.Step.TheVariants.{Late};
ghost use Rattle.vd_drive.specs.Drivers.{WriterStep, LeavesDisk};
ghost use Rattle.vd_drive.specs.Moves.{Drives, core_work};

use vd_core::{Core, Step};
use vd_device::{Base, Store};
use vd_law::entry::Sector;
use vd_passes::pass::Phase;

/// Drives the writes of a core.
pub struct Writer;

impl Writer {
    /// Makes the one step that a pass with a write calls for. `content` is the whole content that was asked. Late and Busy
    /// change nothing but the number of steps and, for Late, the device's count of late calls; Busy comes exactly where `enter` is
    /// refused, by the pass that refuses it. Every other step leaves the pass with fewer steps to its reply, which are at most five
    /// for each piece and one more.
    pub fn next<S: Store, B: Base>(core: &mut Core<S, B>, pass: u32, content: &[Sector]) -> Step
        requires busy { IsAt core.old.passes pass (λ p. (p.phase ≢ Idle) × (p.write ≡ true) × (p.flush ≡ false)) }
        requires content { HasAskedWrite core.old.history.log.entries pass content.now }
        ensures makes { IsAt core.old.passes pass (λ p. WriterStep S.Store B.Base p.phase content.now result pass core.old core.new) }
        ensures step { IsStep S.Store B.Base pass core.old core.new }
        ensures drives { Drives result core.old.shape.block pass (core_work core.old) (core_work core.new) }
        ensures late { result ≡ Late → Rose (S.late core.old.store) (S.late core.new.store) ⊎ Rose (B.late core.old.base) (B.late core.new.base) }
        ensures leaves { LeavesDisk core.old core.new }
        ensures flusher { core.new.flusher ≡ core.old.flusher }
        ensures keeps { KeepsStore S.Store core.old.store core.new.store }
        ensures base_keeps { KeepsBase B.Base core.old.base core.new.base }
    {
        match core.phase(pass) {
            Phase::Asked => match core.enter(pass) {
                Ok(()) => Step::Again,
                Err(busy) => Step::Busy { by: busy.by },
            },
            Phase::Held => {
                if core.is_fresh(pass) || core.is_whole(pass) {
                    core.issue(pass, content);
                } else {
                    core.fetch(pass);
                }
                Step::Again
            }
            Phase::Fetching => core.settle_fetch(pass, &mut []),
            Phase::Filled => {
                core.issue(pass, content);
                Step::Again
            }
            Phase::Issuing => core.settle_issue(pass),
            Phase::Ready => Step::Ended(core.reply(pass)),
            Phase::Idle | Phase::Looking | Phase::Flushing => unreachable!(),
        }
    }
}
