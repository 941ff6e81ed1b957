//! The calls of a store in memory.

ghost use Rattle.std.specs.Prelude.{◌≡◌, ◌<◌, [], ◌∷◌, length};
ghost use Rattle.vd_device.specs.declared.ticket.Kind.TheVariants.{Read, Write, Flush};
ghost use Rattle.vd_device.specs.Tickets.{IsRange, HasPlace, IsFree, IsInFlight, Puts, IsTicket, sectors_read};
ghost use Rattle.vd_device.specs.Calls.{ask_read_entry, ask_flush_entry, issue_entry, settled_of};
ghost use Rattle.vd_device.specs.Frames.{IsNextTicket};
ghost use Rattle.vd_device.specs.Stores.{SettlesCall, StoreCountsStand, StoreTakes};
ghost use Rattle.vd_mem.specs.StoreState.{StillRuns, submitted, waited, wait_answer, polled_once, settle_answer, is_late};
ghost use Rattle.vd_mem.specs.Flying.{Flies};
ghost use Rattle.vd_mem.specs.Devices.{mem_store};
ghost use Rattle.vd_faults.specs.Tapes.{events_told};

use crate::ends::{answer, call_of, end, settled};
use crate::mem_store::MemStore;
use crate::tickets::DEPTH;
use vd_device::{Kind, Settled, Store, Ticket, Waited};
use vd_law::entry::{Event, Request, Sector};

impl MemStore {
    /// Whether a poll of the ticket comes too early: a rule holds it, each that does with a poll left.
    fn is_late(&self, ticket: &Ticket) -> bool
        ensures { result ≡ is_late self.now ticket.now }
    {
        self.tape.runs_on()
            && self.tickets.rules.hold(ticket)
            && !self.tickets.rules.hold_spent(ticket)
    }
}

impl Store for MemStore {
    ghost use Rattle.std.specs.Prelude.{length};
    ghost use Rattle.vd_faults.specs.Tapes.{events_told};
    ghost use Rattle.vd_mem.specs.StoreState.{StillRuns, disk_of};
    ghost use Rattle.vd_mem.specs.Flying.{Flies};

    ghost tells = { StillRuns };

    ghost records = { λ m. Unit {0} };

    ghost disk = { disk_of };

    ghost flight = { Flies };

    ghost sectors = { λ m. length m.start };

    ghost depth = { λ m. 128 };

    ghost faults = { λ m. m.faults };

    ghost late = { λ m. m.late };

    ghost events = { λ m. events_told m.log m.over };

    ghost last = { λ m. m.last };

    fn sectors(&self) -> u64 {
        self.start.len() as u64
    }

    fn depth(&self) -> u64 {
        DEPTH
    }

    fn faults(&self) -> u64 {
        self.tickets.faults
    }

    fn late(&self) -> u64 {
        self.tickets.late
    }

    fn in_flight(&self) -> u64 {
        self.tickets.flying
    }

    fn events(&self) -> u64 {
        self.tape.events()
    }

    fn submit_write(&mut self, first: u64, content: &[Sector]) -> Ticket
        requires range { IsRange (length self.old.start) first (length content.now) }
        requires free { IsFree (Flies self.old) 128 first (length content.now) }
        ensures ticket { IsTicket result Write first (length content.now) }
        ensures next { IsNextTicket mem_store.last result self.old self.new }
        ensures rises { StillRuns self.new → self.old.last < result.number }
        ensures flight { Puts result (Flies self.old) (Flies self.new) }
        ensures counts { StoreCountsStand mem_store self.old self.new }
        ensures takes { StoreTakes mem_store (issue_entry result content.now ∷ []) self.old self.new }
        // the store's new state, whole
        ensures after { self.new ≡ submitted (issue_entry result content.now) self.old }
    {
        let number = self.tickets.submit();
        let id = call_of(number);
        let place = self.tape.len();
        self.tape.add(Event::Issue { id, first, content }, place);
        Ticket::new(number, Kind::Write, first, content.len() as u64, place)
    }

    fn submit_read(&mut self, first: u64, count: u64) -> Ticket
        requires range { IsRange (length self.old.start) first count }
        requires free { IsFree (Flies self.old) 128 first count }
        ensures ticket { IsTicket result Read first count }
        ensures next { IsNextTicket mem_store.last result self.old self.new }
        ensures rises { StillRuns self.new → self.old.last < result.number }
        ensures flight { Puts result (Flies self.old) (Flies self.new) }
        ensures counts { StoreCountsStand mem_store self.old self.new }
        ensures takes { StoreTakes mem_store (ask_read_entry result ∷ []) self.old self.new }
        ensures after { self.new ≡ submitted (ask_read_entry result) self.old }
    {
        let number = self.tickets.submit();
        let id = call_of(number);
        let place = self.tape.len();
        let request = Request::Read { first, count };
        self.tape.add(Event::Ask { id, request }, place);
        Ticket::new(number, Kind::Read, first, count, place)
    }

    fn submit_flush(&mut self) -> Ticket
        requires place { HasPlace (Flies self.old) 128 }
        ensures kind { result.kind ≡ Flush }
        ensures next { IsNextTicket mem_store.last result self.old self.new }
        ensures rises { StillRuns self.new → self.old.last < result.number }
        ensures flight { Puts result (Flies self.old) (Flies self.new) }
        ensures counts { StoreCountsStand mem_store self.old self.new }
        ensures takes { StoreTakes mem_store (ask_flush_entry result ∷ []) self.old self.new }
        ensures after { self.new ≡ submitted (ask_flush_entry result) self.old }
    {
        let number = self.tickets.submit();
        let id = call_of(number);
        let place = self.tape.len();
        let request = Request::Flush;
        self.tape.add(Event::Ask { id, request }, place);
        Ticket::new(number, Kind::Flush, 0, 0, place)
    }

    fn settle(&mut self, ticket: Ticket, out: &mut [Sector]) -> Settled
        requires mine { IsInFlight (Flies self.old) ticket }
        requires room { length out.old ≡ sectors_read ticket }
        ensures settles { SettlesCall mem_store result ticket out.old out.new self.old self.new }
        // which answer, and the store's new state, whole
        ensures answer { result ≡ settle_answer self.old ticket }
        ensures after { self.new ≡ polled_once ticket self.old }
    {
        if self.is_late(&ticket) {
            self.tickets.poll(&ticket);
            return Settled::NotYet(ticket);
        }
        settled(self.wait(ticket, out))
    }

    fn wait(&mut self, ticket: Ticket, out: &mut [Sector]) -> Waited
        requires mine { IsInFlight (Flies self.old) ticket }
        requires room { length out.old ≡ sectors_read ticket }
        ensures settles { SettlesCall mem_store (settled_of result) ticket out.old out.new self.old self.new }
        // which answer, and the store's new state, whole
        ensures answer { settled_of result ≡ wait_answer self.old ticket }
        ensures after { self.new ≡ waited ticket self.old }
    {
        let ending = self.tickets.ended.saturating_add(1);
        let fault = self.tickets.rules.fault(ending, self.tape.log(), &ticket);
        let done = end(&mut self.held, &mut self.tape, &ticket, fault, out);
        self.tickets.end(&ticket, done);
        answer(done, ticket.spend())
    }
}
