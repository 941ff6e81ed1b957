//! A device whose settles wait.

ghost use Rattle.std.specs.Prelude.{◌≡◌};
ghost use Rattle.vd_device.specs.Calls.{settled_of};

use crate::base::Base;
use crate::settled::{Settled, Waited};
use crate::store::Store;
use crate::ticket::Ticket;
use vd_law::entry::Sector;

/// A store, or a base, that settles by waiting, so that no settle is ever too early. All else is the inner device's.
pub struct Patient<D> {
    pub inner: D,
}

impl<D> Patient<D> {
    pub fn new(inner: D) -> Patient<D>
        ensures { result.inner ≡ inner }
    {
        Patient { inner }
    }

    pub fn into_inner(self) -> D
        ensures { result ≡ self.inner }
    {
        let Patient { inner } = self;
        inner
    }
}

fn settled(waited: Waited) -> Settled
    ensures { result ≡ settled_of waited }
{
    match waited {
        Waited::Done => Settled::Done,
        Waited::Failed(number) => Settled::Failed(number),
    }
}

impl<D: Store> Store for Patient<D> {
    ghost tells = { λ p. D.tells p.inner };

    ghost records = { λ p. D.records p.inner };

    ghost disk = { λ p. D.disk p.inner };

    ghost flight = { λ p. D.flight p.inner };

    ghost sectors = { λ p. D.sectors p.inner };

    ghost depth = { λ p. D.depth p.inner };

    ghost faults = { λ p. D.faults p.inner };

    ghost late = { λ p. 0 };

    ghost events = { λ p. D.events p.inner };

    ghost last = { λ p. D.last p.inner };

    fn sectors(&self) -> u64 {
        self.inner.sectors()
    }

    fn depth(&self) -> u64 {
        self.inner.depth()
    }

    fn faults(&self) -> u64 {
        self.inner.faults()
    }

    fn late(&self) -> u64 {
        0
    }

    fn in_flight(&self) -> u64 {
        self.inner.in_flight()
    }

    fn events(&self) -> u64 {
        self.inner.events()
    }

    fn submit_write(&mut self, first: u64, content: &[Sector]) -> Ticket {
        self.inner.submit_write(first, content)
    }

    fn submit_read(&mut self, first: u64, count: u64) -> Ticket {
        self.inner.submit_read(first, count)
    }

    fn submit_flush(&mut self) -> Ticket {
        self.inner.submit_flush()
    }

    fn settle(&mut self, ticket: Ticket, out: &mut [Sector]) -> Settled {
        settled(self.inner.wait(ticket, out))
    }

    fn wait(&mut self, ticket: Ticket, out: &mut [Sector]) -> Waited {
        self.inner.wait(ticket, out)
    }
}

impl<D: Base> Base for Patient<D> {
    ghost tells = { λ p. D.tells p.inner };

    ghost content = { λ p. D.content p.inner };

    ghost flight = { λ p. D.flight p.inner };

    ghost sectors = { λ p. D.sectors p.inner };

    ghost depth = { λ p. D.depth p.inner };

    ghost faults = { λ p. D.faults p.inner };

    ghost late = { λ p. 0 };

    ghost last = { λ p. D.last p.inner };

    fn sectors(&self) -> u64 {
        self.inner.sectors()
    }

    fn depth(&self) -> u64 {
        self.inner.depth()
    }

    fn faults(&self) -> u64 {
        self.inner.faults()
    }

    fn late(&self) -> u64 {
        0
    }

    fn in_flight(&self) -> u64 {
        self.inner.in_flight()
    }

    fn submit_read(&mut self, first: u64, count: u64) -> Ticket {
        self.inner.submit_read(first, count)
    }

    fn settle(&mut self, ticket: Ticket, out: &mut [Sector]) -> Settled {
        settled(self.inner.wait(ticket, out))
    }

    fn wait(&mut self, ticket: Ticket, out: &mut [Sector]) -> Waited {
        self.inner.wait(ticket, out)
    }
}
