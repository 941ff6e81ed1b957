//! What one caller has asked, and how far it has come.

ghost use Rattle.std.specs.Prelude.{◌≡◌, ◌+◌, ◌^◌, ◌-◌, ◌<◌, None, Some, IsSome};

use crate::buffer::Buffer;
use vd_device::Ticket;
use vd_law::entry::{Answer, Request};

/// What a pass does next.
#[derive(Clone, Copy, Debug, PartialEq, Eq, Drop)]
pub enum Phase {
    /// It has asked nothing, or has its reply.
    Idle,
    /// Its next piece needs the region of its block.
    Asked,
    /// It holds the region.
    Held,
    /// It reads the block from the base.
    Fetching,
    /// Its buffer has the block as it is without its piece.
    Filled,
    /// It writes the piece to the store.
    Issuing,
    /// It reads the piece.
    Looking,
    /// Its flush is under way.
    Flushing,
    /// Its reply is known.
    Ready,
}

/// Why a request failed: the ticket that failed, by its device, or the last generation, at which no flush recycles.
#[derive(Clone, Copy, Debug, PartialEq, Eq, Drop)]
pub enum Fault {
    Store(u64),
    Base(u64),
    Worn(u64),
}

/// One caller's request, and how far it has come. Sectors are those of the guest's disk, but for `at`.
pub struct Pass {
    pub phase: Phase,
    /// The number of the last call, 0 before the first.
    pub call: u64,
    pub write: bool,
    pub flush: bool,
    /// The range of the request, in sectors; a flush has none.
    pub first: u64,
    pub count: u64,
    /// How many sectors are done.
    pub done: u64,
    /// The block that the next piece lies in, and how many sectors the piece has.
    pub block: u64,
    pub piece: u64,
    /// The store's sector at which the block begins, where it has a place.
    pub at: u64,
    pub fault: Option<Fault>,
    /// What is in flight on the store.
    pub ticket: Option<Ticket>,
    /// What is in flight on the base.
    pub fetch: Option<Ticket>,
    /// The room in the history that the request may still need.
    pub events: u64,
    pub sectors: u64,
    /// Room for a block.
    pub buffer: Buffer,
}

fn put(slot: &mut Option<Ticket>, ticket: Ticket)
    requires { slot.old ≡ None }
    ensures { slot.new ≡ Some ticket }
{
    match slot.replace(ticket) {
        None => {}
        Some(_) => unreachable!(),
    }
}

fn take(slot: &mut Option<Ticket>) -> Ticket
    requires { IsSome slot.old }
    ensures ticket { slot.old ≡ Some result }
    ensures none { slot.new ≡ None }
{
    match slot.take() {
        Some(ticket) => ticket,
        None => unreachable!(),
    }
}

impl Pass {
    ghost use Rattle.vd_law.specs.Entries.{asked_of};
    ghost use Rattle.vd_passes.specs.declared.pass.Phase.TheVariants.{Idle};
    ghost use Rattle.vd_passes.specs.Passes.{after_spending, after_ask, after_enter, after_fetch, after_filled, after_issue, after_look, after_base_look, after_piece, after_fault, after_meta, after_flush, after_reply, answer_of, IsNew};

    /// A pass that has asked nothing yet, with the buffer of a block.
    pub fn new(buffer: Buffer) -> Pass
        ensures { IsNew buffer result }
    {
        Pass {
            phase: Phase::Idle,
            call: 0,
            write: false,
            flush: false,
            first: 0,
            count: 0,
            done: 0,
            block: 0,
            piece: 0,
            at: 0,
            fault: None,
            ticket: None,
            fetch: None,
            events: 0,
            sectors: 0,
            buffer,
        }
    }

    /// Asks a request, to which so much room is left.
    pub fn ask(&mut self, request: Request<'_>, events: u64, sectors: u64)
        requires { self.old.call < 2 ^ 64 - 1 }
        ensures { self.new ≡ after_ask self.old (asked_of request.entry) events sectors }
    {
        match request {
            Request::Read { first, count } => {
                self.write = false;
                self.flush = false;
                self.first = first;
                self.count = count;
            }
            Request::Write { first, content } => {
                self.write = true;
                self.flush = false;
                self.first = first;
                self.count = content.len() as u64;
            }
            Request::Flush => {
                self.write = false;
                self.flush = true;
                self.first = 0;
                self.count = 0;
            }
        }
        self.phase = Phase::Asked;
        self.call += 1;
        self.done = 0;
        self.fault = None;
        self.events = events;
        self.sectors = sectors;
    }

    /// Enters a block, which begins at sector `at` of the store, for a piece of so many sectors.
    pub fn enter(&mut self, block: u64, piece: u64, at: u64)
        ensures { self.new ≡ after_enter self.old block piece at }
    {
        self.phase = Phase::Held;
        self.block = block;
        self.piece = piece;
        self.at = at;
    }

    pub fn begin_fetch(&mut self, ticket: Ticket)
        requires { self.old.fetch ≡ None }
        ensures { self.new ≡ after_fetch self.old ticket }
    {
        self.phase = Phase::Fetching;
        put(&mut self.fetch, ticket);
    }

    /// Its buffer holds the block, once what was in flight on the base is taken.
    pub fn fill(&mut self)
        requires { self.old.fetch ≡ None }
        ensures { self.new ≡ after_filled self.old self.old.buffer }
    {
        self.phase = Phase::Filled;
    }

    pub fn begin_issue(&mut self, ticket: Ticket)
        requires { self.old.ticket ≡ None }
        ensures { self.new ≡ after_issue self.old ticket self.old.buffer }
    {
        self.phase = Phase::Issuing;
        put(&mut self.ticket, ticket);
        self.spend(1, self.piece);
    }

    pub fn begin_look(&mut self, ticket: Ticket)
        requires { self.old.ticket ≡ None }
        ensures { self.new ≡ after_look self.old ticket }
    {
        self.phase = Phase::Looking;
        put(&mut self.ticket, ticket);
    }

    pub fn begin_base_look(&mut self, ticket: Ticket)
        requires { self.old.fetch ≡ None }
        ensures { self.new ≡ after_base_look self.old ticket }
    {
        self.phase = Phase::Looking;
        put(&mut self.fetch, ticket);
    }

    /// Its flush has submitted a call on the image's metadata, or that of the guest's data.
    pub fn begin_meta(&mut self, ticket: Ticket)
        requires { self.old.ticket ≡ None }
        ensures { self.new ≡ after_meta self.old ticket }
    {
        self.phase = Phase::Flushing;
        put(&mut self.ticket, ticket);
    }

    /// Its flush is over, or there was none.
    pub fn end_flush(&mut self, why: Option<Fault>)
        ensures { self.new ≡ after_flush self.old why }
    {
        self.phase = Phase::Ready;
        self.fault = why;
    }

    /// Takes what is in flight on the store, for a settle.
    pub fn take_ticket(&mut self) -> Ticket
        requires { IsSome self.old.ticket }
        ensures ticket { self.old.ticket ≡ Some result }
        ensures rest { self.new ≡ record self.old { ticket = None } }
    {
        take(&mut self.ticket)
    }

    /// Puts it back, after a settle that was late.
    pub fn put_ticket(&mut self, ticket: Ticket)
        requires { self.old.ticket ≡ None }
        ensures { self.new ≡ record self.old { ticket = Some ticket } }
    {
        put(&mut self.ticket, ticket);
    }

    /// Takes what is in flight on the base, for a settle.
    pub fn take_fetch(&mut self) -> Ticket
        requires { IsSome self.old.fetch }
        ensures ticket { self.old.fetch ≡ Some result }
        ensures rest { self.new ≡ record self.old { fetch = None } }
    {
        take(&mut self.fetch)
    }

    /// Puts it back, after a settle that was late.
    pub fn put_fetch(&mut self, ticket: Ticket)
        requires { self.old.fetch ≡ None }
        ensures { self.new ≡ record self.old { fetch = Some ticket } }
    {
        put(&mut self.fetch, ticket);
    }

    /// Its piece has ended: it goes on with the next, or it is done.
    pub fn end_piece(&mut self)
        requires ticket { self.old.ticket ≡ None }
        requires fetch { self.old.fetch ≡ None }
        requires fits { self.old.done + self.old.piece < 2 ^ 64 }
        ensures { self.new ≡ after_piece self.old }
    {
        self.done += self.piece;
        self.phase = if self.done < self.count {
            Phase::Asked
        } else {
            Phase::Ready
        };
    }

    pub fn fail(&mut self, fault: Fault)
        requires ticket { self.old.ticket ≡ None }
        requires fetch { self.old.fetch ≡ None }
        ensures { self.new ≡ after_fault fault self.old }
    {
        self.phase = Phase::Ready;
        self.fault = Some(fault);
    }

    /// Uses so much of its room in the history.
    pub fn spend(&mut self, events: u64, sectors: u64)
        ensures { self.new ≡ after_spending events sectors self.old }
    {
        self.events = self.events.saturating_sub(events);
        self.sectors = self.sectors.saturating_sub(sectors);
    }

    pub fn reply(&mut self) -> Answer
        ensures answer { result ≡ answer_of self.old }
        ensures idle { self.new ≡ after_reply self.old }
    {
        self.phase = Phase::Idle;
        self.events = 0;
        self.sectors = 0;
        let done = self.done;
        match self.fault {
            None => Answer::Ok,
            Some(Fault::Store(ticket)) => Answer::StoreFault { ticket, done },
            Some(Fault::Base(ticket)) => Answer::BaseFault { ticket, done },
            Some(Fault::Worn(generation)) => Answer::Worn { generation },
        }
    }
}
