//! The steps of a write: a pass enters a block, fills its buffer with it where it must, and issues its piece.

ghost use Rattle.std.specs.Prelude.{◌≡◌, IfErr, OnOk};
ghost use Rattle.vd_device.specs.declared.settled.Settled.{Settled as AnySettled};
ghost use Rattle.vd_passes.specs.declared.pass.Phase.TheVariants.{Fetching, Issuing};
ghost use Rattle.vd_passes.specs.Steps.{IsAt, HasAskedWrite};
ghost use Rattle.vd_machine.specs.Issuing.{IsWritable};
ghost use Rattle.vd_machine.specs.Outcomes.{outcome_of};
ghost use Rattle.vd_machine.specs.WriteSteps.{HasPieces, IsPartWriter, EnterStep, KeptOutStep, FetchStep, SettleFetchStep, IssueStep, SettleIssueStep};
ghost use Rattle.vd_core.specs.Outcomes.{step_of};

use crate::outcome::{Step, release, release_failed};
use crate::state::{Core, one_more};
use vd_device::{Base, Store};
use vd_law::entry::Sector;
use vd_machine::{enter_block, fetch_block, issue_piece, settle_block, settle_write};
use vd_regions::regions::Busy;

impl<S: Store, B: Base> Core<S, B> {
    /// Gives a pass that has asked the region of its next piece's block, to itself for a write, else shared. Busy comes
    /// exactly where another pass holds the block and one of the two writes, by the lowest such pass; then nothing changes.
    pub fn enter(&mut self, pass: u32) -> Result<(), Busy>
        requires phase { IsAt self.old.passes pass HasPieces }
        ensures busy { IfErr result (λ busy. KeptOutStep busy.by pass self.old self.new) }
        ensures enters { OnOk result (EnterStep pass self.old self.new) }
    {
        self.steps = one_more(self.steps);
        enter_block(
            &self.shape,
            &self.state.table,
            &mut self.regions,
            &mut self.passes,
            pass as usize,
        )
    }

    /// Submits the base read of the block of a write's piece, or fills the buffer at once where the base has nothing of the
    /// block. The block isn't fresh, and the piece isn't the whole of it.
    pub fn fetch(&mut self, pass: u32)
        requires phase { IsAt self.old.passes pass (IsPartWriter self.old.shape self.old.fresh) }
        ensures fetches { FetchStep B.Base pass self.old self.new }
    {
        self.steps = one_more(self.steps);
        fetch_block(&mut self.base, &self.shape, &mut self.passes, pass as usize);
    }

    /// Settles that read. Where it failed the pass is ready with a base fault. `out`, which is empty for a write, is left as it is.
    pub fn settle_fetch(&mut self, pass: u32, out: &mut [Sector]) -> Step
        requires phase { IsAt self.old.passes pass (λ p. p.phase ≡ Fetching) }
        ensures settles { (answer : AnySettled) × (result ≡ step_of (outcome_of answer)) × SettleFetchStep B.Base answer pass self.old self.new }
        ensures out { out.new ≡ out.old }
    {
        self.steps = one_more(self.steps);
        let _ = out;
        let outcome = settle_block(&mut self.base, &self.shape, &mut self.passes, pass as usize);
        release_failed(&mut self.regions, pass, outcome)
    }

    /// Issues the piece of a write whose whole content this is, and submits the store's write: of the piece where the block is
    /// fresh or the piece is all of it, else of the block in the buffer with the piece laid over it.
    pub fn issue(&mut self, pass: u32, content: &[Sector])
        requires phase { IsAt self.old.passes pass (IsWritable self.old.shape self.old.fresh) }
        requires content { HasAskedWrite self.old.history.log.entries pass content.now }
        ensures issues { IssueStep S.Store content.now pass self.old self.new }
    {
        self.steps = one_more(self.steps);
        issue_piece(
            &mut self.store,
            &self.shape,
            &self.state.fresh,
            &mut self.passes,
            &mut self.history,
            pass as usize,
            content,
        );
    }

    /// Settles the write of a pass. Where it is done its block is fresh, and owed to the next flush unless every image has it; where
    /// it failed the pass is ready with a store fault.
    pub fn settle_issue(&mut self, pass: u32) -> Step
        requires phase { IsAt self.old.passes pass (λ p. p.phase ≡ Issuing) }
        ensures settles { (answer : AnySettled) × (result ≡ step_of (outcome_of answer)) × SettleIssueStep S.Store answer pass self.old self.new }
    {
        self.steps = one_more(self.steps);
        let outcome = settle_write(
            &mut self.store,
            &self.shape,
            &mut self.state.fresh,
            &mut self.keeper,
            &mut self.passes,
            &mut self.history,
            pass as usize,
        );
        release(&mut self.regions, pass, outcome)
    }
}
