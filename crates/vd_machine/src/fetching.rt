//! The base read that fills a pass's buffer with its block.

ghost use Rattle.std.specs.Prelude.{Bool, List, ◌≡◌, ◌-◌, ◌*◌, ◌<◌, ◌≤◌};
ghost use Rattle.vd_device.specs.declared.settled.Settled.{Settled as AnySettled};
ghost use Rattle.vd_device.specs.Calls.{IsCaused};
ghost use Rattle.vd_passes.specs.Laying.{count_below};
ghost use Rattle.vd_passes.specs.Causes.{OfBase, HasNextTicket};
ghost use Rattle.vd_law.specs.Entries.{Entry};
ghost use Rattle.vd_passes.specs.Requests.{requests};
ghost use Rattle.vd_passes.specs.Steps.{IsAt, CanReadBase, IsWaitingForBase, FetchSettled};
ghost use Rattle.vd_machine.specs.Outcomes.{outcome_of};
ghost use Rattle.vd_device.specs.Bases.{KeepsBase};
ghost use Rattle.vd_machine.specs.Fetching.{FetchesBlock};

use crate::outcome::Outcome;
use vd_device::{Base, Settled};
use vd_passes::pass::{Fault, Pass};
use vd_passes::shape::Shape;

/// Of `count` sectors from `first` on, those that are read from the base.
pub fn below(shape: &Shape, first: u64, count: u64) -> u64
    ensures { result ≡ count_below shape.now.limit first count }
{
    shape.limit.saturating_sub(first).min(count)
}

/// Submits the base read of a pass's block, or fills the buffer with zeros where the base has nothing of it.
pub fn fetch_block<B: Base>(base: &mut B, shape: &Shape, passes: &mut Vec<Pass>, pass: usize)
    requires ready { IsAt passes.old.items pass (CanReadBase B.Base shape.now base.old) }
    ensures fetches { (fresh : List Bool) (entries : List Entry) → FetchesBlock B.Base pass
        (requests shape.now fresh passes.old.items entries) (requests shape.now fresh passes.new.items entries) base.old base.new }
    ensures number { IsAt passes.new.items pass (HasNextTicket OfBase (B.last base.old) (B.last base.new)) }
    ensures keeps { KeepsBase B.Base base.old base.new }
{
    let p = &mut passes[pass];
    let first = shape.block * p.block;
    let count = below(shape, first, shape.block);
    if count == 0 {
        p.buffer.clear();
        p.fill();
        return;
    }
    let ticket = base.submit_read(first, count);
    p.begin_fetch(ticket);
}

/// Settles the base read of a pass's block.
pub fn settle_block<B: Base>(
    base: &mut B,
    shape: &Shape,
    passes: &mut Vec<Pass>,
    pass: usize,
) -> Outcome
    requires waiting { IsAt passes.old.items pass (λ p. (w : IsWaitingForBase B.Base shape.now base.old p) × (w.ticket.count ≤ shape.now.block)) }
    ensures settled { (answer : AnySettled) × (result ≡ outcome_of answer) × ((fresh : List Bool) (entries : List Entry) → FetchSettled B.Base answer pass
        (requests shape.now fresh passes.old.items entries) (requests shape.now fresh passes.new.items entries) base.old base.new)
        × IsCaused answer (B.faults base.old) (B.faults base.new) (B.late base.old) (B.late base.new) }
    ensures number { B.last base.new ≡ B.last base.old }
    ensures keeps { KeepsBase B.Base base.old base.new }
{
    let p = &mut passes[pass];
    let ticket = p.take_fetch();
    match p.buffer.settle(base, ticket) {
        Settled::Done => {
            p.fill();
            Outcome::Done
        }
        Settled::NotYet(ticket) => {
            p.put_fetch(ticket);
            Outcome::Late
        }
        Settled::Failed(number) => {
            p.fail(Fault::Base(number));
            Outcome::Failed
        }
    }
}
