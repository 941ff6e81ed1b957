//! The read of a piece: from the store where its block is fresh, else from the base, with zeros where that has nothing.

ghost use Rattle.std.specs.Prelude.{Bool, List, ◌≡◌, ◌⊎◌, ◌+◌, ◌-◌, ◌*◌, ◌^◌, [], ◌∷◌, ◌<◌, ◌≤◌, length, replicate, None};
ghost use Rattle.vd_device.specs.declared.ticket.Kind.TheVariants.{Read};
ghost use Rattle.vd_device.specs.declared.settled.Settled.{Settled as AnySettled};
ghost use Rattle.vd_device.specs.Calls.{IsCaused};
ghost use Rattle.vd_device.specs.Tickets.{IsInFlight};
ghost use Rattle.vd_device.specs.Disks.{IsRunning, TellsOrStoppedSince};
ghost use Rattle.vd_passes.specs.Buffers.{BufferSettled};
ghost use Rattle.vd_passes.specs.Laying.{count_below};
ghost use Rattle.vd_passes.specs.Causes.{OfStore, OfBase, HasNextTicket};
ghost use Rattle.vd_law.specs.Entries.{Entry};
ghost use Rattle.vd_passes.specs.declared.shape.Shape.{Shape as AnyShape};
ghost use Rattle.vd_passes.specs.Requests.{requests};
ghost use Rattle.vd_passes.specs.Steps.{IsAt, CanRead, CanReadBase, IsWaiting, IsWaitingForBase, Looks, LooksAtBase, Sees, LookSettled, BaseLookSettled};
ghost use Rattle.vd_machine.specs.Adding.{CanAdd, AddsEntries};
ghost use Rattle.vd_machine.specs.Outcomes.{outcome_of, read_numbers_of, read_sectors_of};
ghost use Rattle.vd_device.specs.Stores.{KeepsStore};
ghost use Rattle.vd_device.specs.Bases.{KeepsBase};
ghost use Rattle.vd_format.specs.Background.{zero_sector};

use crate::adding::{add, call_id};
use crate::fetching::below;
use crate::outcome::Outcome;
use vd_device::{Base, Settled, Store, Ticket};
use vd_format::zeros::clear;
use vd_law::entry::{Event, Sector};
use vd_log::history::History;
use vd_passes::pass::{Fault, Pass};
use vd_passes::shape::Shape;

/// Submits the read of a pass's piece from its place in the store.
pub fn look_at_store<S: Store>(store: &mut S, shape: &Shape, passes: &mut Vec<Pass>, pass: usize)
    requires ready { IsAt passes.old.items pass (CanRead S.Store shape.now store.old) }
    ensures looks { (fresh : List Bool) (entries : List Entry) → Looks S.Store pass
        (requests shape.now fresh passes.old.items entries) (requests shape.now fresh passes.new.items entries) store.old store.new }
    ensures number { IsAt passes.new.items pass (HasNextTicket OfStore (S.last store.old) (S.last store.new)) }
    ensures stopped { S.records store.new → TellsOrStoppedSince (S.tells store.new) (S.events store.new) (S.disk store.old) (S.disk store.new) }
    ensures keeps { KeepsStore S.Store store.old store.new }
{
    let p = &mut passes[pass];
    let at = p.at + (p.first + p.done - shape.block * p.block);
    let ticket = store.submit_read(at, p.piece);
    p.begin_look(ticket);
}

/// Submits the read of what the base has of a pass's piece.
pub fn look_at_base<B: Base>(base: &mut B, shape: &Shape, passes: &mut Vec<Pass>, pass: usize)
    requires ready { IsAt passes.old.items pass (λ p. CanReadBase B.Base shape.now base.old p
        × (0 < count_below shape.now.limit (p.first + p.done) p.piece)) }
    ensures looks { (fresh : List Bool) (entries : List Entry) → LooksAtBase B.Base pass
        (requests shape.now fresh passes.old.items entries) (requests shape.now fresh passes.new.items entries) base.old base.new }
    ensures number { IsAt passes.new.items pass (HasNextTicket OfBase (B.last base.old) (B.last base.new)) }
    ensures keeps { KeepsBase B.Base base.old base.new }
{
    let p = &mut passes[pass];
    let first = p.first + p.done;
    let ticket = base.submit_read(first, below(shape, first, p.piece));
    p.begin_base_look(ticket);
}

/// Sees the zeros of a piece of which the base has nothing.
pub fn see_zeros<S: Store>(
    store: &S,
    passes: &mut Vec<Pass>,
    history: &mut History,
    pass: usize,
    out: &mut [Sector],
)
    requires ready { IsAt passes.old.items pass (λ p. (p.done + p.piece ≤ length out.old) × (p.first + p.count ≤ 2 ^ 26)
        × (p.done + p.piece ≤ p.count) × (p.ticket ≡ None) × (p.fetch ≡ None) × CanAdd p.piece history.old (S.events store.now)) }
    requires few { length passes.old.items ≤ 64 }
    ensures sees { IsAt passes.old.items pass (λ p. ((shape : AnyShape) (fresh : List Bool) → Sees (replicate p.piece zero_sector) pass
        (requests shape fresh passes.old.items history.old.log.entries) (requests shape fresh passes.new.items history.new.log.entries) out.old out.new)
        × AddsEntries (S.events store.now ∷ []) p.piece history.old history.new) }
    ensures running { S.tells store.now → IsRunning (S.events store.now) (S.disk store.now) }
{
    let p = &mut passes[pass];
    let from = p.done as usize;
    let part = &mut out[from..from + p.piece as usize];
    clear(part);
    let event = Event::Seen {
        id: call_id(pass, p.call),
        first: p.first + p.done,
        content: part,
    };
    add(store, history, event);
    p.end_piece();
    p.spend(1, p.piece);
}

/// Settles the read of a pass's piece from the store. Where it is done its place in `out` has what was read.
pub fn settle_store_look<S: Store>(
    store: &mut S,
    shape: &Shape,
    passes: &mut Vec<Pass>,
    history: &mut History,
    pass: usize,
    out: &mut [Sector],
) -> Outcome
    requires waiting { IsAt passes.old.items pass (λ p. (w : IsWaiting S.Store Read shape.now store.old p) × (w.ticket.count ≡ p.piece)
        × (p.done + p.piece ≤ length out.old) × CanAdd p.piece history.old (S.events store.old)) }
    requires few { length passes.old.items ≤ 64 }
    ensures settled { (answer : AnySettled) × (result ≡ outcome_of answer) × ((fresh : List Bool) → LookSettled S.Store answer pass
        (requests shape.now fresh passes.old.items history.old.log.entries) (requests shape.now fresh passes.new.items history.new.log.entries)
        store.old store.new out.old out.new)
        × IsAt passes.old.items pass (λ p. AddsEntries (read_numbers_of answer (S.events store.new)) (read_sectors_of answer p.piece) history.old history.new)
        × IsCaused answer (S.faults store.old) (S.faults store.new) (S.late store.old) (S.late store.new) }
    ensures running { S.tells store.new → (history.new ≡ history.old) ⊎ IsRunning (S.events store.new) (S.disk store.new) }
    ensures stopped { S.records store.new → TellsOrStoppedSince (S.tells store.new) (S.events store.new) (S.disk store.old) (S.disk store.new) }
    ensures keeps { KeepsStore S.Store store.old store.new }
{
    let p = &mut passes[pass];
    let id = call_id(pass, p.call);
    let first = p.first + p.done;
    let from = p.done as usize;
    let part = &mut out[from..from + p.piece as usize];
    let ticket = p.take_ticket();
    match store.settle(ticket, part) {
        Settled::Done => {
            let content = part;
            add(store, history, Event::Seen { id, first, content });
            p.end_piece();
            p.spend(1, p.piece);
            Outcome::Done
        }
        Settled::NotYet(ticket) => {
            p.put_ticket(ticket);
            Outcome::Late
        }
        Settled::Failed(number) => {
            p.fail(Fault::Store(number));
            Outcome::Failed
        }
    }
}

/// Settles a base read at the front of a part, and makes the rest of it zeros.
fn settle_part<B: Base>(base: &mut B, ticket: Ticket, part: &mut [Sector]) -> Settled
    requires mine { IsInFlight (B.flight base.old) ticket }
    requires kind { ticket.kind ≡ Read }
    requires fits { ticket.count ≤ length part.old }
    ensures { BufferSettled B.Base result ticket part.old part.new base.old base.new }
{
    let count = ticket.count() as usize;
    let (front, back) = part.split_at_mut(count);
    let answer = base.settle(ticket, front);
    if let Settled::Done = &answer {
        clear(back);
    }
    answer
}

/// Settles the read of a pass's piece from the base. Where it is done its place in `out` has what was read, and zeros behind it.
pub fn settle_base_look<S: Store, B: Base>(
    store: &S,
    base: &mut B,
    shape: &Shape,
    passes: &mut Vec<Pass>,
    history: &mut History,
    pass: usize,
    out: &mut [Sector],
) -> Outcome
    requires waiting { IsAt passes.old.items pass (λ p. (w : IsWaitingForBase B.Base shape.now base.old p) × (w.ticket.count ≤ p.piece)
        × (p.done + p.piece ≤ length out.old) × CanAdd p.piece history.old (S.events store.now)) }
    requires few { length passes.old.items ≤ 64 }
    ensures settled { (answer : AnySettled) × (result ≡ outcome_of answer) × ((fresh : List Bool) → BaseLookSettled B.Base answer pass
        (requests shape.now fresh passes.old.items history.old.log.entries) (requests shape.now fresh passes.new.items history.new.log.entries)
        base.old base.new out.old out.new)
        × IsAt passes.old.items pass (λ p. AddsEntries (read_numbers_of answer (S.events store.now)) (read_sectors_of answer p.piece) history.old history.new)
        × IsCaused answer (B.faults base.old) (B.faults base.new) (B.late base.old) (B.late base.new) }
    ensures running { S.tells store.now → (history.new ≡ history.old) ⊎ IsRunning (S.events store.now) (S.disk store.now) }
    ensures number { B.last base.new ≡ B.last base.old }
    ensures keeps { KeepsBase B.Base base.old base.new }
{
    let p = &mut passes[pass];
    let id = call_id(pass, p.call);
    let first = p.first + p.done;
    let from = p.done as usize;
    let part = &mut out[from..from + p.piece as usize];
    let ticket = p.take_fetch();
    match settle_part(base, ticket, part) {
        Settled::Done => {
            let content = part;
            add(store, history, Event::Seen { id, first, content });
            p.end_piece();
            p.spend(1, p.piece);
            Outcome::Done
        }
        Settled::NotYet(ticket) => {
            p.put_fetch(ticket);
            Outcome::Late
        }
        Settled::Failed(number) => {
            p.fail(Fault::Base(number));
            Outcome::Failed
        }
    }
}
