//! A store that stops after so many events.

ghost use Rattle.std.specs.Prelude.{◌≡◌, Some, None, ◌<◌, [], ◌∷◌, length};
ghost use Rattle.vd_device.specs.declared.ticket.Kind.TheVariants.{Read, Write, Flush};
ghost use Rattle.vd_device.specs.Tickets.{IsRange, HasPlace, IsFree, IsInFlight, Puts, IsTicket, sectors_read};
ghost use Rattle.vd_device.specs.Calls.{ask_read_entry, ask_flush_entry, issue_entry, settled_of};
ghost use Rattle.vd_device.specs.Frames.{IsNextTicket};
ghost use Rattle.vd_device.specs.Stores.{SettlesCall, StoreCountsStand, StoreTakes};
ghost use Rattle.vd_mem.specs.StoreState.{StillRuns, submitted, waited, wait_answer, polled_once, settle_answer, is_late};
ghost use Rattle.vd_mem.specs.Flying.{Flies};
ghost use Rattle.vd_mem.specs.Devices.{fused};
ghost use Rattle.vd_faults.specs.Tapes.{events_told};

use crate::mem_store::MemStore;
use vd_device::{Settled, Store, Ticket, Waited};
use vd_law::entry::Sector;

/// Passes calls to a store until its log has so many events. The next submit, settle or wait stops the store.
#[derive(Drop)]
pub struct Fuse {
    pub inner: MemStore,
}

impl Fuse {
    pub fn new(inner: MemStore, events: u64) -> Fuse
        ensures { result.inner ≡ record inner { fuse = Some events } }
    {
        Fuse {
            inner: inner.with_fuse(Some(events)),
        }
    }

    /// The store as it stands, with no fuse.
    pub fn into_inner(self) -> MemStore
        ensures { result ≡ record self.inner { fuse = None } }
    {
        let Fuse { inner } = self;
        inner.with_fuse(None)
    }
}

impl Store for Fuse {
    ghost use Rattle.std.specs.Prelude.{length};
    ghost use Rattle.vd_faults.specs.Tapes.{events_told};
    ghost use Rattle.vd_mem.specs.StoreState.{StillRuns, disk_of};
    ghost use Rattle.vd_mem.specs.Flying.{Flies};

    ghost tells = { λ f. StillRuns f.inner };

    ghost records = { λ f. Unit {0} };

    ghost disk = { λ f. disk_of f.inner };

    ghost flight = { λ f. Flies f.inner };

    ghost sectors = { λ f. length f.inner.start };

    ghost depth = { λ f. 128 };

    ghost faults = { λ f. f.inner.faults };

    ghost late = { λ f. f.inner.late };

    ghost events = { λ f. events_told f.inner.log f.inner.over };

    ghost last = { λ f. f.inner.last };

    fn sectors(&self) -> u64 {
        self.inner.sectors()
    }

    fn depth(&self) -> u64 {
        self.inner.depth()
    }

    fn faults(&self) -> u64 {
        self.inner.faults()
    }

    fn late(&self) -> u64 {
        self.inner.late()
    }

    fn in_flight(&self) -> u64 {
        self.inner.in_flight()
    }

    fn events(&self) -> u64 {
        self.inner.events()
    }

    fn submit_write(&mut self, first: u64, content: &[Sector]) -> Ticket
        requires range { IsRange (length self.old.inner.start) first (length content.now) }
        requires free { IsFree (Flies self.old.inner) 128 first (length content.now) }
        ensures ticket { IsTicket result Write first (length content.now) }
        ensures next { IsNextTicket fused.last result self.old self.new }
        ensures rises { StillRuns self.new.inner → self.old.inner.last < result.number }
        ensures flight { Puts result (Flies self.old.inner) (Flies self.new.inner) }
        ensures counts { StoreCountsStand fused self.old self.new }
        ensures takes { StoreTakes fused (issue_entry result content.now ∷ []) self.old self.new }
        ensures after { self.new.inner ≡ submitted (issue_entry result content.now) self.old.inner }
    {
        self.inner.submit_write(first, content)
    }

    fn submit_read(&mut self, first: u64, count: u64) -> Ticket
        requires range { IsRange (length self.old.inner.start) first count }
        requires free { IsFree (Flies self.old.inner) 128 first count }
        ensures ticket { IsTicket result Read first count }
        ensures next { IsNextTicket fused.last result self.old self.new }
        ensures rises { StillRuns self.new.inner → self.old.inner.last < result.number }
        ensures flight { Puts result (Flies self.old.inner) (Flies self.new.inner) }
        ensures counts { StoreCountsStand fused self.old self.new }
        ensures takes { StoreTakes fused (ask_read_entry result ∷ []) self.old self.new }
        ensures after { self.new.inner ≡ submitted (ask_read_entry result) self.old.inner }
    {
        self.inner.submit_read(first, count)
    }

    fn submit_flush(&mut self) -> Ticket
        requires place { HasPlace (Flies self.old.inner) 128 }
        ensures kind { result.kind ≡ Flush }
        ensures next { IsNextTicket fused.last result self.old self.new }
        ensures rises { StillRuns self.new.inner → self.old.inner.last < result.number }
        ensures flight { Puts result (Flies self.old.inner) (Flies self.new.inner) }
        ensures counts { StoreCountsStand fused self.old self.new }
        ensures takes { StoreTakes fused (ask_flush_entry result ∷ []) self.old self.new }
        ensures after { self.new.inner ≡ submitted (ask_flush_entry result) self.old.inner }
    {
        self.inner.submit_flush()
    }

    fn settle(&mut self, ticket: Ticket, out: &mut [Sector]) -> Settled
        requires mine { IsInFlight (Flies self.old.inner) ticket }
        requires room { length out.old ≡ sectors_read ticket }
        ensures settles { SettlesCall fused result ticket out.old out.new self.old self.new }
        ensures answer { result ≡ settle_answer self.old.inner ticket }
        ensures after { self.new.inner ≡ polled_once ticket self.old.inner }
    {
        self.inner.settle(ticket, out)
    }

    fn wait(&mut self, ticket: Ticket, out: &mut [Sector]) -> Waited
        requires mine { IsInFlight (Flies self.old.inner) ticket }
        requires room { length out.old ≡ sectors_read ticket }
        ensures settles { SettlesCall fused (settled_of result) ticket out.old out.new self.old self.new }
        ensures answer { settled_of result ≡ wait_answer self.old.inner ticket }
        ensures after { self.new.inner ≡ waited ticket self.old.inner }
    {
        self.inner.wait(ticket, out)
    }
}
