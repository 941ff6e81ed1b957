//! A base over a file.

ghost use Rattle.std.specs.Prelude.{◌≡◌, IfOk, true, false};
ghost use Rattle.vd_file.specs.Standing.{unused_file};

use crate::file::{NotOpened, SectorFile};
use crate::store::FileStore;
use std::fs::File;
use std::marker::Model;
use std::rt::Files;
use vd_device::{Base, Settled, Store, Ticket, Waited};
use vd_law::entry::Sector;

/// A base over a file that is only read, or a device of no sectors without one. A read is done when it is settled; no
/// settle is too early.
#[derive(Drop)]
pub struct FileBase {
    store: FileStore,
}

impl Model for FileBase {
    ghost use Rattle.vd_file.specs.Standing.{FileState};

    ghost Value = { FileState };

    ghost view = { λ b. b.store };
}

impl FileBase {
    /// Opens the file at this path.
    pub fn at<R: Files<File = File> + AllocGlobal>(
        rt: &R,
        path: &str,
    ) -> Result<FileBase, NotOpened>
        ensures { IfOk result (λ b. b ≡ unused_file true b.sectors) }
    {
        let file = SectorFile::open_to_read(rt, path)?;
        Ok(FileBase {
            store: FileStore::over(file),
        })
    }

    /// A device of no sectors.
    pub fn none() -> FileBase
        ensures { result ≡ unused_file false 0 }
    {
        FileBase {
            store: FileStore::none(),
        }
    }
}

impl Base for FileBase {
    ghost use Rattle.std.specs.Prelude.{[]};
    ghost use Rattle.vd_file.specs.Standing.{AreFlying};

    ghost tells = { λ b. ⊥ };

    ghost content = { λ b. [] };

    ghost flight = { AreFlying };

    ghost sectors = { λ b. b.sectors };

    ghost depth = { λ b. 128 };

    ghost faults = { λ b. b.faults };

    ghost late = { λ b. 0 };

    ghost last = { λ b. b.last };

    fn sectors(&self) -> u64 {
        self.store.sectors()
    }

    fn depth(&self) -> u64 {
        self.store.depth()
    }

    fn faults(&self) -> u64 {
        self.store.faults()
    }

    fn late(&self) -> u64 {
        self.store.late()
    }

    fn in_flight(&self) -> u64 {
        self.store.in_flight()
    }

    fn submit_read(&mut self, first: u64, count: u64) -> Ticket {
        self.store.submit_read(first, count)
    }

    fn settle(&mut self, ticket: Ticket, out: &mut [Sector]) -> Settled {
        self.store.settle(ticket, out)
    }

    fn wait(&mut self, ticket: Ticket, out: &mut [Sector]) -> Waited {
        self.store.wait(ticket, out)
    }
}
