//! A store in memory.

ghost use Rattle.std.specs.Prelude.{◌≡◌, ◌<◌, ◌≤◌, length, IfOk};
ghost use Rattle.vd_device.specs.Disks.{IsClean};
ghost use Rattle.vd_mem.specs.StoreState.{disk_of, fresh};

use crate::tickets::Tickets;
use std::alloc::Global;
use std::marker::Model;
use vd_faults::{Rule, Tape, Versions};
use vd_law::entry::{NoMemory, Room, Sector};
use vd_log::log::Log;

/// A store in memory that tells everything and fails by a list of rules. A call whose event its log has no room for stops it.
#[derive(Drop)]
pub struct MemStore {
    pub(crate) start: Vec<Sector>,
    pub(crate) held: Vec<Sector>,
    pub(crate) tape: Tape,
    pub(crate) tickets: Tickets,
    pub(crate) versions: Vec<Versions>,
}

impl Model for MemStore {
    ghost use Rattle.vd_mem.specs.StoreState.{MemStoreState};

    ghost Value = { MemStoreState };

    ghost use Rattle.vd_mem.specs.StoreFields.{memory_of, IsStore};

    ghost view = { memory_of };

    ghost invariant = { IsStore };
}

/// These sectors once more.
fn copy_of(alloc: Global, content: &Vec<Sector>) -> Result<Vec<Sector>, NoMemory>
    ensures { IfOk result (λ copy. copy.items ≡ content.now.items) }
{
    let mut copy = Vec::with_capacity(alloc, content.len())?;
    copy.extend_from_slice(content.as_slice())?;
    Ok(copy)
}

/// Room for the versions of so many sectors.
fn versions_of(alloc: Global, sectors: usize) -> Result<Vec<Versions>, NoMemory>
    ensures { IfOk result (λ versions. length versions.items ≡ sectors) }
{
    Ok(vec![in alloc; Versions::NONE; sectors]?)
}

impl MemStore {
    /// A clean store with this content and an empty log with this room, which fails by these rules.
    pub fn new(
        alloc: Global,
        content: Vec<Sector>,
        room: Room,
        rules: Vec<Rule>,
    ) -> Result<MemStore, NoMemory>
        ensures store { IfOk result (λ m. m ≡ fresh content.items room rules.items) }
        ensures clean { IfOk result (λ m. IsClean (disk_of m)) }
    {
        let held = copy_of(alloc, &content)?;
        let tape = Tape::new(alloc, room)?;
        let versions = versions_of(alloc, content.len())?;
        Ok(MemStore {
            start: content,
            held,
            tape,
            tickets: Tickets::new(rules),
            versions,
        })
    }

    /// Its log, which stands as it stood where the store has stopped.
    pub fn log(&self) -> &Log
        ensures { result.now ≡ self.now.log }
    {
        self.tape.log()
    }

    /// What its sectors held at the start.
    pub fn start(&self) -> &[Sector]
        ensures { result.now ≡ self.now.start }
    {
        self.start.as_slice()
    }

    /// What reads give.
    pub fn held(&self) -> &[Sector]
        ensures { result.now ≡ self.now.held }
    {
        self.held.as_slice()
    }

    /// The store with another fuse.
    pub(crate) fn with_fuse(mut self, fuse: Option<u64>) -> MemStore
        ensures { result ≡ record self { fuse = fuse } }
    {
        self.tape.set_fuse(fuse);
        self
    }
}
