//! What a crash leaves of a store in memory.

ghost use Rattle.std.specs.Prelude.{◌≡◌, ℕ, [], length, Some, slice_get};
ghost use Rattle.std.specs.List.{Contains};
ghost use Rattle.vd_law.specs.declared.entry.Sector.{Sector as AnySector};
ghost use Rattle.vd_law.specs.Contents.{may};
ghost use Rattle.vd_device.specs.Disks.{IsClean};
ghost use Rattle.vd_faults.specs.Choices.{asked, contents_at, IsChosen};
ghost use Rattle.vd_mem.specs.StoreState.{disk_of, fresh};

use crate::mem_store::MemStore;
use vd_faults::{Chooser, leave_image};
use vd_law::entry::Sector;

/// Makes the sectors the same as others, of which there are as many.
fn copy(to: &mut Vec<Sector>, from: &Vec<Sector>)
    requires { length to.old.items ≡ length from.now.items }
    ensures { to.new.items ≡ from.now.items }
{
    to.as_mut_slice().copy_from_slice(from.as_slice());
}

impl MemStore {
    /// The store after a crash: its start is an image in which each sector has that of the contents which a crash may leave
    /// there, the firm one first, that the chooser chooses. It is asked for each sector in rising order. The store is clean;
    /// its log is empty and has the same room, and it has no rules. Takes time for each sector and for each sector that was
    /// written.
    pub fn crash<C: Chooser>(self, chooser: &mut C) -> MemStore
        ensures store { result ≡ fresh result.start self.log.room [] }
        ensures image { IsChosen C.choice chooser.old (disk_of self) result.start }
        ensures asked { chooser.new ≡ asked C.choice chooser.old (contents_at (disk_of self)) (length self.start) }
        ensures allowed { (s : ℕ) (v : AnySector) → slice_get result.start s ≡ Some v → Contains (may self.start self.log.entries s) v }
        ensures clean { IsClean (disk_of result) }
    {
        let MemStore {
            mut start,
            mut held,
            mut tape,
            mut tickets,
            mut versions,
        } = self;
        leave_image(&mut start, &mut versions, &tape, chooser);
        copy(&mut held, &start);
        tape.clear();
        tickets.clear();
        MemStore {
            start,
            held,
            tape,
            tickets,
            versions,
        }
    }
}
