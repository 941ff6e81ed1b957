//! A piece of a write: it is issued, and its end is settled.

ghost use Rattle.std.specs.Prelude.{◌≡◌, ◌⊎◌, ◌+◌, ◌-◌, ◌*◌, [], ◌∷◌, ◌<◌, ◌≤◌, length};
ghost use Rattle.vd_device.specs.declared.ticket.Kind.TheVariants.{Write};
ghost use Rattle.vd_device.specs.declared.settled.Settled.{Settled as AnySettled};
ghost use Rattle.vd_device.specs.Calls.{IsCaused};
ghost use Rattle.vd_device.specs.Disks.{IsRunning, TellsOrStoppedSince};
ghost use Rattle.vd_passes.specs.declared.pass.Phase.TheVariants.{Held, Filled};
ghost use Rattle.vd_passes.specs.Causes.{OfStore, HasNextTicket};
ghost use Rattle.vd_passes.specs.Requests.{requests};
ghost use Rattle.vd_passes.specs.Steps.{IsAt, CanWrite, IsWaiting, Issues, WriteSettled};
ghost use Rattle.vd_machine.specs.Adding.{CanAdd, AddsEntries};
ghost use Rattle.vd_machine.specs.Outcomes.{outcome_of, numbers_of};
ghost use Rattle.vd_device.specs.Stores.{KeepsStore};
ghost use Rattle.vd_machine.specs.Issuing.{SubmitsPiece, CanIssue, keeper_after_write};
ghost use Rattle.vd_format.specs.Layouts.{blocks_of};

use crate::adding::{add, call_id};
use crate::outcome::Outcome;
use vd_bits::bits::Bits;
use vd_device::{Settled, Store, Ticket};
use vd_keeper::Keeper;
use vd_law::entry::{Event, Sector};
use vd_log::history::History;
use vd_passes::pass::{Fault, Pass, Phase};
use vd_passes::shape::Shape;

/// Submits the write of a piece: by itself, or in the buffer with the block round it.
fn submit_piece<S: Store>(store: &mut S, shape: &Shape, p: &mut Pass, part: &[Sector]) -> Ticket
    requires ready { CanWrite S.Store shape.now store.old p.old }
    requires part { length part.now ≡ p.old.piece }
    requires phase { (p.old.phase ≡ Held) ⊎ (p.old.phase ≡ Filled) }
    ensures { SubmitsPiece S.Store shape.now p.old p.new part.now result store.old store.new }
{
    let offset = p.first + p.done - shape.block * p.block;
    match p.phase {
        Phase::Filled => {
            p.buffer.lay(offset as usize, part);
            store.submit_write(p.at, p.buffer.sectors())
        }
        _ => store.submit_write(p.at + offset, part),
    }
}

/// Issues a pass's piece of its content, and submits the store's write.
pub fn issue_piece<S: Store>(
    store: &mut S,
    shape: &Shape,
    fresh: &Bits,
    passes: &mut Vec<Pass>,
    history: &mut History,
    pass: usize,
    content: &[Sector],
)
    requires ready { IsAt passes.old.items pass (CanIssue S.Store shape.now fresh.now.bits content.now history.old store.old) }
    requires few { length passes.old.items ≤ 64 }
    ensures issues { Issues S.Store content.now pass (requests shape.now fresh.now.bits passes.old.items history.old.log.entries)
        (requests shape.now fresh.now.bits passes.new.items history.new.log.entries) store.old store.new }
    ensures extends { IsAt passes.old.items pass (λ p. AddsEntries (S.events store.old ∷ []) p.piece history.old history.new) }
    ensures number { IsAt passes.new.items pass (HasNextTicket OfStore (S.last store.old) (S.last store.new)) }
    ensures running { S.tells store.old → IsRunning (S.events store.old) (S.disk store.old) }
    ensures stopped { S.records store.new → TellsOrStoppedSince (S.tells store.new) (S.events store.new) (S.disk store.old) (S.disk store.new) }
    ensures keeps { KeepsStore S.Store store.old store.new }
{
    let p = &mut passes[pass];
    let from = p.done as usize;
    let part = &content[from..from + p.piece as usize];
    let event = Event::Issue {
        id: call_id(pass, p.call),
        first: p.first + p.done,
        content: part,
    };
    // The Issue comes first, so that its number is the place of its write in the store's log.
    add(store, history, event);
    let ticket = submit_piece(store, shape, p, part);
    p.begin_issue(ticket);
}

/// Settles the write of a pass. Where it is done its block is fresh, and owed unless every image has it.
pub fn settle_write<S: Store>(
    store: &mut S,
    shape: &Shape,
    fresh: &mut Bits,
    keeper: &mut Keeper,
    passes: &mut Vec<Pass>,
    history: &mut History,
    pass: usize,
) -> Outcome
    requires blocks { blocks_of keeper.old.header ≡ length fresh.old.bits }
    requires waiting { IsAt passes.old.items pass (λ p. IsWaiting S.Store Write shape.now store.old p × (p.block < length fresh.old.bits)) }
    requires few { length passes.old.items ≤ 64 }
    requires room { CanAdd 0 history.old (S.events store.old) }
    ensures settled { (answer : AnySettled) × (result ≡ outcome_of answer)
        × WriteSettled S.Store answer pass (requests shape.now fresh.old.bits passes.old.items history.old.log.entries)
        (requests shape.now fresh.new.bits passes.new.items history.new.log.entries) store.old store.new
        × AddsEntries (numbers_of answer (S.events store.new)) 0 history.old history.new
        × IsCaused answer (S.faults store.old) (S.faults store.new) (S.late store.old) (S.late store.new)
        × IsAt passes.old.items pass (λ p. keeper.new ≡ keeper_after_write answer p.block keeper.old) }
    ensures chunk { fresh.new.chunk ≡ fresh.old.chunk }
    ensures running { S.tells store.new → (history.new ≡ history.old) ⊎ IsRunning (S.events store.new) (S.disk store.new) }
    ensures stopped { S.records store.new → TellsOrStoppedSince (S.tells store.new) (S.events store.new) (S.disk store.old) (S.disk store.new) }
    ensures keeps { KeepsStore S.Store store.old store.new }
{
    let p = &mut passes[pass];
    let id = call_id(pass, p.call);
    let ticket = p.take_ticket();
    match store.settle(ticket, &mut []) {
        Settled::Done => {
            add(store, history, Event::Done { id });
            fresh.set(p.block as u32);
            keeper.owe(p.block as u32);
            p.end_piece();
            p.spend(1, 0);
            Outcome::Done
        }
        Settled::NotYet(ticket) => {
            p.put_ticket(ticket);
            Outcome::Late
        }
        Settled::Failed(number) => {
            add(store, history, Event::Broke { id });
            p.fail(Fault::Store(number));
            p.spend(1, 0);
            Outcome::Failed
        }
    }
}
