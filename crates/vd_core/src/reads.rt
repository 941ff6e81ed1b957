//! The steps of a read: a pass that holds its block looks at its piece.

ghost use Rattle.std.specs.Prelude.{◌≡◌, None, IsSome, length};
ghost use Rattle.vd_device.specs.declared.settled.Settled.{Settled as AnySettled};
ghost use Rattle.vd_passes.specs.declared.pass.Phase.TheVariants.{Looking};
ghost use Rattle.vd_passes.specs.Steps.{IsAt};
ghost use Rattle.vd_machine.specs.Outcomes.{outcome_of};
ghost use Rattle.vd_machine.specs.ReadSteps.{IsReader, IsStoreReader, IsBaseReader, IsZerosReader, StoreLookStep, BaseLookStep, ZerosStep, LookStep, SettleStoreLookStep, SettleBaseLookStep, SettleLookStep};
ghost use Rattle.vd_core.specs.Outcomes.{step_of};

use crate::outcome::{Step, release};
use crate::state::{Core, one_more};
use vd_device::{Base, Store};
use vd_law::entry::Sector;
use vd_machine::{
    below, look_at_base, look_at_store, see_zeros, settle_base_look, settle_store_look,
};

impl<S: Store, B: Base> Core<S, B> {
    /// The look at a piece whose block is fresh.
    fn look_in_store(&mut self, pass: u32)
        requires phase { IsAt self.old.passes pass (IsStoreReader self.old) }
        ensures looks { StoreLookStep S.Store pass self.old self.new }
    {
        self.steps = one_more(self.steps);
        look_at_store(
            &mut self.store,
            &self.shape,
            &mut self.passes,
            pass as usize,
        );
    }

    /// The look at a piece of which the base has something.
    fn look_in_base(&mut self, pass: u32)
        requires phase { IsAt self.old.passes pass (IsBaseReader self.old) }
        ensures looks { BaseLookStep B.Base pass self.old self.new }
    {
        self.steps = one_more(self.steps);
        look_at_base(&mut self.base, &self.shape, &mut self.passes, pass as usize);
    }

    /// The look at a piece that is zeros.
    fn look_at_zeros(&mut self, pass: u32, out: &mut [Sector])
        requires phase { IsAt self.old.passes pass (λ p. IsZerosReader self.old p × (p.count ≡ length out.old)) }
        ensures sees { ZerosStep S.Store pass out.old out.new self.old self.new }
    {
        self.steps = one_more(self.steps);
        see_zeros(
            &self.store,
            &mut self.passes,
            &mut self.history,
            pass as usize,
            out,
        );
        self.regions.free(pass);
    }

    /// Looks at the piece of a read that holds its block: submits the read of a fresh block's piece to the store, else that of
    /// what the base has of the piece; where it has nothing the piece of `out` is zeros at once, and the piece has ended.
    pub fn look(&mut self, pass: u32, out: &mut [Sector])
        requires phase { IsAt self.old.passes pass (λ p. IsReader p × (p.count ≡ length out.old)) }
        ensures looks { LookStep S.Store B.Base pass out.old out.new self.old self.new }
    {
        let p = &self.passes[pass as usize];
        let count = below(&self.shape, p.first + p.done, p.piece);
        if self.state.fresh.get(p.block as u32) {
            self.look_in_store(pass);
        } else if count > 0 {
            self.look_in_base(pass);
        } else {
            self.look_at_zeros(pass, out);
        }
    }

    /// Settles a look in the store.
    fn settle_store(&mut self, pass: u32, out: &mut [Sector]) -> Step
        requires phase { IsAt self.old.passes pass (λ p. (p.phase ≡ Looking) × IsSome p.ticket × (p.count ≡ length out.old)) }
        ensures settles { (answer : AnySettled) × (result ≡ step_of (outcome_of answer))
            × SettleStoreLookStep S.Store answer pass out.old out.new self.old self.new }
    {
        self.steps = one_more(self.steps);
        let outcome = settle_store_look(
            &mut self.store,
            &self.shape,
            &mut self.passes,
            &mut self.history,
            pass as usize,
            out,
        );
        release(&mut self.regions, pass, outcome)
    }

    /// Settles a look in the base.
    fn settle_base(&mut self, pass: u32, out: &mut [Sector]) -> Step
        requires phase { IsAt self.old.passes pass (λ p. (p.phase ≡ Looking) × (p.ticket ≡ None) × (p.count ≡ length out.old)) }
        ensures settles { (answer : AnySettled) × (result ≡ step_of (outcome_of answer))
            × SettleBaseLookStep B.Base S.Store answer pass out.old out.new self.old self.new }
    {
        self.steps = one_more(self.steps);
        let outcome = settle_base_look(
            &self.store,
            &mut self.base,
            &self.shape,
            &mut self.passes,
            &mut self.history,
            pass as usize,
            out,
        );
        release(&mut self.regions, pass, outcome)
    }

    /// Settles the look of a pass. Where it is done the piece's place in `out` has what was seen; where it failed the pass is
    /// ready with the fault of the device that was read.
    pub fn settle_look(&mut self, pass: u32, out: &mut [Sector]) -> Step
        requires phase { IsAt self.old.passes pass (λ p. (p.phase ≡ Looking) × (p.count ≡ length out.old)) }
        ensures settles { (answer : AnySettled) × (result ≡ step_of (outcome_of answer))
            × SettleLookStep S.Store B.Base answer pass out.old out.new self.old self.new }
    {
        if self.passes[pass as usize].ticket.is_some() {
            self.settle_store(pass, out)
        } else {
            self.settle_base(pass, out)
        }
    }
}
