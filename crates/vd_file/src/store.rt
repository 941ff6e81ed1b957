//! A store over a file.

ghost use Rattle.std.specs.Prelude.{◌≡◌, ◌+◌, ◌-◌, ◌*◌, ◌^◌, ◌<◌, ◌≤◌, ℕ, [], length, Some, IfOk, IsTrue, IsFalse, true, false, not, if◌then◌else◌};
ghost use Rattle.vd_device.specs.Tickets.{IsRange, Puts, Takes, sectors_read};
ghost use Rattle.vd_device.specs.declared.ticket.Kind.TheVariants.{Read, Flush};
ghost use Rattle.vd_device.specs.Calls.{next_number};
ghost use Rattle.vd_device.specs.declared.settled.Waited.{Waited as AnyWaited};
ghost use Rattle.vd_file.specs.Standing.{unused_file, ReadsInside, AreFlying};
ghost use Rattle.vd_law.specs.Counts.{Rose};

use crate::file::{NotOpened, SectorFile};
use std::fs::File;
use std::marker::Model;
use std::rt::Files;
use vd_device::{Kind, Settled, Store, Ticket, Waited};
use vd_law::entry::Sector;

const DEPTH: u64 = 128;

/// What a write's ticket is marked with.
const DONE: u64 = 0;

const FAILED: u64 = 1;

/// A store over a file, or a device of no sectors without one. A write is done when it is submitted, a read and a flush
/// when they are settled; no settle is too early.
#[derive(Drop)]
pub struct FileStore {
    file: Option<SectorFile>,
    sectors: u64,
    flying: u64,
    last: u64,
    faults: u64,
    events: u64,
    /// A flush failed. What it could not write may be lost, and a later one would not tell.
    unsure: bool,
}

impl Model for FileStore {
    ghost use Rattle.std.specs.Prelude.{◌<◌, ◌^◌};
    ghost use Rattle.std.specs.Option.{is_some};
    ghost use Rattle.vd_file.specs.Standing.{FileState};

    ghost Value = { FileState };

    ghost view = { λ s. record {
      has_file = is_some s.file;
      sectors = s.sectors;
      flying = s.flying;
      last = s.last;
      faults = s.faults;
      events = s.events;
      unsure = s.unsure;
    } };

    ghost invariant = { λ s. s.sectors < 2 ^ 55 };
}

impl FileStore {
    /// Opens the file at this path, or makes one of so many sectors where none is yet. A file that may not be written is
    /// opened to be read, and its writes fail.
    pub fn at<R: Files<File = File> + AllocGlobal>(
        rt: &R,
        path: &str,
        made: Option<u64>,
    ) -> Result<FileStore, NotOpened>
        ensures unused { IfOk result (λ s. s ≡ unused_file true s.sectors) }
        ensures made { IfOk result (λ s. (sectors : ℕ) → made ≡ Some sectors → s.sectors ≡ sectors) }
    {
        let file = match made {
            Some(sectors) => SectorFile::make(rt, path, sectors)?,
            None => SectorFile::open(rt, path)?,
        };
        Ok(FileStore::over(file))
    }

    /// A device of no sectors.
    pub fn none() -> FileStore
        ensures { result ≡ unused_file false 0 }
    {
        FileStore {
            file: None,
            sectors: 0,
            flying: 0,
            last: 0,
            faults: 0,
            events: 0,
            unsure: false,
        }
    }

    pub(crate) fn over(file: SectorFile) -> FileStore
        ensures { result ≡ unused_file true file.sectors }
    {
        FileStore {
            sectors: file.sectors(),
            file: Some(file),
            flying: 0,
            last: 0,
            faults: 0,
            events: 0,
            unsure: false,
        }
    }

    fn submit(&mut self, kind: Kind, first: u64, count: u64, mark: u64) -> Ticket
        requires place { self.old.flying < 128 }
        requires inside { kind ≡ Read → IsRange self.old.sectors first count }
        ensures number { result.number ≡ next_number self.old.last }
        ensures kind { result.kind ≡ kind }
        ensures first { result.first ≡ first }
        ensures count { result.count ≡ count }
        ensures after { self.new ≡ record self.old { flying = self.old.flying + 1; last = result.number; events = self.new.events } }
        ensures last { self.old.last ≤ self.new.last }
        ensures events { self.old.events ≤ self.new.events }
        ensures flight { Puts result (AreFlying self.old) (AreFlying self.new) }
    {
        self.flying += 1;
        self.last = self.last.saturating_add(1);
        self.events = self.events.saturating_add(1);
        Ticket::new(self.last, kind, first, count, mark)
    }

    fn write(&self, first: u64, content: &[Sector]) -> bool
        requires { IsRange self.now.sectors first (length content.now) }
    {
        match &self.file {
            Some(file) => file.write(first, content).is_ok(),
            None => false,
        }
    }

    fn read(&mut self, first: u64, out: &mut [Sector]) -> bool
        requires { IsRange self.old.sectors first (length out.old) }
        ensures unread { IsFalse result → out.new ≡ out.old }
        ensures after { self.new ≡ self.old }
    {
        match &mut self.file {
            Some(file) => file.read(first, out).is_ok(),
            None => false,
        }
    }

    /// Once a flush failed, none is done. Without a file none fails.
    fn sync(&mut self) -> bool
        ensures done { result ≡ not self.new.unsure }
        ensures kept { IsTrue self.old.unsure → self.new.unsure ≡ true }
        ensures nowhere { IsFalse self.old.has_file → self.new.unsure ≡ self.old.unsure }
        ensures after { self.new ≡ record self.old { unsure = self.new.unsure } }
    {
        let synced = match &self.file {
            Some(file) => file.sync().is_ok(),
            None => true,
        };
        self.unsure = self.unsure || !synced;
        !self.unsure
    }

    /// Does what is left of the ticket's work, and answers whether all of it is done.
    fn work(&mut self, ticket: &Ticket, out: &mut [Sector]) -> bool
        requires inside { ReadsInside self.old.sectors ticket.now }
        requires room { length out.old ≡ sectors_read ticket.now }
        ensures unread { IsFalse result → out.new ≡ out.old }
        ensures flushed { ticket.now.kind ≡ Flush → result ≡ not self.new.unsure }
        ensures kept { IsTrue self.old.unsure → self.new.unsure ≡ true }
        ensures nowhere { IsFalse self.old.has_file → self.new.unsure ≡ self.old.unsure }
        ensures after { self.new ≡ record self.old { unsure = self.new.unsure } }
    {
        match ticket.kind() {
            Kind::Read => self.read(ticket.first(), out),
            Kind::Write => ticket.mark() == DONE,
            Kind::Flush => self.sync(),
        }
    }

    fn end(&mut self, ticket: Ticket, is_done: bool) -> Waited
        requires { 0 < self.old.flying }
        ensures answer { result ≡ (if is_done then AnyWaited.Done else AnyWaited.Failed ticket.number) }
        ensures flying { self.new.flying + 1 ≡ self.old.flying }
        ensures same { self.new ≡ record self.old { flying = self.new.flying; faults = self.new.faults; events = self.new.events } }
        ensures no_fewer_faults { self.old.faults ≤ self.new.faults }
        ensures counted { IsFalse is_done → Rose self.old.faults self.new.faults }
        ensures events { self.old.events ≤ self.new.events }
        ensures flight { Takes ticket (AreFlying self.old) (AreFlying self.new) }
    {
        let number = ticket.spend();
        self.flying -= 1;
        self.events = self.events.saturating_add(1);
        if is_done {
            return Waited::Done;
        }
        self.faults = self.faults.saturating_add(1);
        Waited::Failed(number)
    }
}

impl Store for FileStore {
    ghost tells = { λ s. ⊥ };

    ghost records = { λ s. ⊥ };

    ghost disk = { λ s. record { start = []; log = []; held = [] } };

    ghost flight = { AreFlying };

    ghost sectors = { λ s. s.sectors };

    ghost depth = { λ s. 128 };

    ghost faults = { λ s. s.faults };

    ghost late = { λ s. 0 };

    ghost events = { λ s. s.events };

    ghost last = { λ s. s.last };

    fn sectors(&self) -> u64 {
        self.sectors
    }

    fn depth(&self) -> u64 {
        DEPTH
    }

    fn faults(&self) -> u64 {
        self.faults
    }

    fn late(&self) -> u64 {
        0
    }

    fn in_flight(&self) -> u64 {
        self.flying
    }

    fn events(&self) -> u64 {
        self.events
    }

    fn submit_write(&mut self, first: u64, content: &[Sector]) -> Ticket {
        let mark = if self.write(first, content) {
            DONE
        } else {
            FAILED
        };
        self.submit(Kind::Write, first, content.len() as u64, mark)
    }

    fn submit_read(&mut self, first: u64, count: u64) -> Ticket {
        self.submit(Kind::Read, first, count, DONE)
    }

    fn submit_flush(&mut self) -> Ticket {
        self.submit(Kind::Flush, 0, 0, DONE)
    }

    fn settle(&mut self, ticket: Ticket, out: &mut [Sector]) -> Settled {
        match self.wait(ticket, out) {
            Waited::Done => Settled::Done,
            Waited::Failed(number) => Settled::Failed(number),
        }
    }

    fn wait(&mut self, ticket: Ticket, out: &mut [Sector]) -> Waited {
        let is_done = self.work(&ticket, out);
        self.end(ticket, is_done)
    }
}
