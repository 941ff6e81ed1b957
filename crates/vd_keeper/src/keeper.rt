//! The keeper.

ghost use Rattle.std.specs.Prelude.{◌≡◌, ◌≤◌, ◌<◌, ◌+◌, ◌/◌, ℕ, true, false, length, IfOk, Some, slice_get};
ghost use Rattle.vd_format.specs.Headers.{IsValid};
ghost use Rattle.vd_format.specs.Layouts.{blocks_of};
ghost use Rattle.vd_keeper.specs.declared.stage.Stage.TheVariants.{Rest};
ghost use Rattle.vd_keeper.specs.declared.stage.Way.TheVariants.{Nothing};
ghost use Rattle.vd_keeper.specs.Keeping.{pages_of, no_marks};
ghost use Rattle.vd_keeper.specs.Flushes.{IsKeeping};

use crate::sets::BlockSet;
use crate::stage::{Stage, Way};
use std::alloc::Global;
use std::marker::Model;
use vd_bits::bits::Bits;
use vd_bits::marked::Marked;
use vd_format::{Header, layout_of};
use vd_law::entry::NoMemory;

/// The number of the map's sectors.
fn pages_in(chunks: u32) -> u64
    ensures { result ≡ (chunks + 31) / 32 }
{
    (u64::from(chunks) + 31) / 32
}

/// What an image's metadata says, what it is to say, and how far the flush under way has come.
///
/// The owed blocks that the flush under way logs stand in the snapshot alone, so that beginning a flush swaps two sets and
/// copies none; what is sealed or given up is moved chunk by chunk.
#[derive(Drop)]
pub struct Keeper {
    pub(crate) header: Header,
    pub(crate) sure: bool,
    pub(crate) next: u32,
    pub(crate) stage: Stage,
    pub(crate) way: Way,
    pub(crate) stale: Bits,
    /// The owed blocks that are not in the snapshot.
    pub(crate) later: BlockSet,
    pub(crate) snapshot: BlockSet,
    pub(crate) marked: Marked,
    pub(crate) put: Marked,
    /// The chunk from which on the snapshot's chunks are not logged yet, and how many are logged.
    pub(crate) from: u64,
    pub(crate) logged: u64,
    pub(crate) head: bool,
}

impl Model for Keeper {
    ghost use Rattle.vd_keeper.specs.Keeping.{KeeperState};

    ghost Value = { KeeperState };

    ghost use Rattle.vd_keeper.specs.KeeperFields.{keeper_state, IsKeeper};

    ghost view = { keeper_state };

    ghost invariant = { IsKeeper };
}

impl Keeper {
    /// A keeper of an opened image with this header, whose local blocks are these. `marked` has the sectors of the map that don't
    /// say what the image says, and `next` is the first slot behind all that count. Nothing is owed.
    pub fn new(
        alloc: Global,
        header: &Header,
        stale: &Bits,
        marked: Marked,
        next: u32,
    ) -> Result<Keeper, NoMemory>
        requires valid { IsValid header.now }
        requires version { header.now.version ≡ 2 }
        requires slots { next ≤ header.now.slots }
        requires chunk { stale.now.chunk ≡ header.now.chunk }
        requires blocks { length stale.now.bits ≡ blocks_of header.now }
        requires pages { length marked ≡ pages_of header.now }
        ensures { IfOk result (λ k. k ≡ record {
          header = header.now;
          sure = true;
          next = next;
          stage = Rest;
          way = Nothing;
          stale = stale.now.bits;
          owed = no_marks (blocks_of header.now);
          snapshot = no_marks (blocks_of header.now);
          marked = marked;
          put = no_marks (pages_of header.now);
          logged = 0;
          head = false;
        }) }
    {
        let layout = layout_of(header);
        let mut local = Bits::new(alloc, layout.blocks, header.chunk)?;
        local.copy_from(stale);
        Ok(Keeper {
            header: *header,
            sure: true,
            next,
            stage: Stage::Rest,
            way: Way::Nothing,
            stale: local,
            later: BlockSet::new(alloc, layout.blocks, header.chunk)?,
            snapshot: BlockSet::new(alloc, layout.blocks, header.chunk)?,
            put: Marked::new(alloc, pages_in(layout.chunks))?,
            marked,
            from: 0,
            logged: 0,
            head: false,
        })
    }

    pub fn is_owed(&self, block: u32) -> bool
        requires { block < blocks_of self.now.header }
        ensures { slice_get self.now.owed block ≡ Some result }
    {
        self.later.has(block) || self.snapshot.has(block)
    }

    pub fn is_stale(&self, block: u32) -> bool
        requires { block < blocks_of self.now.header }
        ensures { slice_get self.now.stale block ≡ Some result }
    {
        self.stale.get(block)
    }

    pub fn stage(&self) -> Stage
        ensures { result ≡ self.now.stage }
    {
        self.stage
    }

    pub fn header(&self) -> Header
        ensures header { result ≡ self.now.header }
        ensures valid { IsValid self.now.header }
        ensures kept { IsKeeping self.now }
    {
        self.header
    }

    /// The first slot that no record of this generation was put into.
    pub fn next_slot(&self) -> u32
        ensures next { result ≡ self.now.next }
        ensures inside { self.now.next ≤ self.now.header.slots }
    {
        self.next
    }
}
