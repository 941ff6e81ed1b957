//! The steps of a read, one after the other.

ghost use Rattle.std.specs.Prelude.{◌≡◌, ◌≢◌, ◌⊎◌, true, false, length};
ghost use Rattle.vd_law.specs.Counts.{Rose};
ghost use Rattle.vd_device.specs.Stores.{KeepsStore};
ghost use Rattle.vd_device.specs.Bases.{KeepsBase};
ghost use Rattle.vd_passes.specs.declared.pass.Phase.TheVariants.{Idle};
ghost use Rattle.vd_passes.specs.Steps.{IsAt};
ghost use Rattle.vd_machine.specs.Steps.{IsStep};
ghost use Rattle.vd_core.specs.declared.outcome.Step.TheVariants.{Late};
ghost use Rattle.vd_drive.specs.Drivers.{ReaderStep, LeavesDisk};
ghost use Rattle.vd_drive.specs.Moves.{Drives, core_work};

use vd_core::{Core, Step};
use vd_device::{Base, Store};
use vd_law::entry::Sector;
use vd_passes::pass::Phase;

/// Drives the reads of a core.
pub struct Reader;

impl Reader {
    /// Makes the one step that a pass with a read calls for. `out` has as many sectors as were asked: where a piece is done, what was
    /// seen of it stands in its place there, and nothing else of `out` changes. Late and Busy change nothing but the number of steps
    /// and, for Late, the device's count of late calls; Busy comes exactly where `enter` is refused, by the pass that refuses it. Every
    /// other step leaves the pass with fewer steps to its reply, which are at most three for each piece and one more.
    pub fn next<S: Store, B: Base>(core: &mut Core<S, B>, pass: u32, out: &mut [Sector]) -> Step
        requires busy { IsAt core.old.passes pass (λ p. (p.phase ≢ Idle) × (p.write ≡ false) × (p.flush ≡ false) × (p.count ≡ length out.old)) }
        ensures makes { IsAt core.old.passes pass (λ p. ReaderStep S.Store B.Base p.phase out.old out.new result pass core.old core.new) }
        ensures step { IsStep S.Store B.Base pass core.old core.new }
        ensures drives { Drives result core.old.shape.block pass (core_work core.old) (core_work core.new) }
        ensures late { result ≡ Late → Rose (S.late core.old.store) (S.late core.new.store) ⊎ Rose (B.late core.old.base) (B.late core.new.base) }
        ensures leaves { LeavesDisk core.old core.new }
        ensures flusher { core.new.flusher ≡ core.old.flusher }
        ensures keeps { KeepsStore S.Store core.old.store core.new.store }
        ensures base_keeps { KeepsBase B.Base core.old.base core.new.base }
        ensures room { length out.new ≡ length out.old }
    {
        match core.phase(pass) {
            Phase::Asked => match core.enter(pass) {
                Ok(()) => Step::Again,
                Err(busy) => Step::Busy { by: busy.by },
            },
            Phase::Held => {
                core.look(pass, out);
                Step::Again
            }
            Phase::Looking => core.settle_look(pass, out),
            Phase::Ready => Step::Ended(core.reply(pass)),
            Phase::Idle | Phase::Fetching | Phase::Filled | Phase::Issuing | Phase::Flushing =>
                unreachable!(),
        }
    }
}
