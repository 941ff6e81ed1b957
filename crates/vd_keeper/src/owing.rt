//! Blocks that come to be owed.

ghost use Rattle.std.specs.Prelude.{◌≡◌, ◌⊎◌, ◌<◌, ◌≤◌, ◌*◌, ◌+◌, ℕ, length};
ghost use Rattle.vd_format.specs.Layouts.{blocks_of};
ghost use Rattle.vd_keeper.specs.declared.stage.Stage.TheVariants.{Rest, Broken};
ghost use Rattle.vd_keeper.specs.Entries.{union_of};
ghost use Rattle.vd_keeper.specs.Moves.{after_owe, after_adopt, difference_of};
ghost use Rattle.vd_keeper.specs.Sets.{Adopted, chunk_count};

use crate::keeper::Keeper;
use crate::sets::BlockSet;
use vd_bits::bits::Bits;
use vd_format::layout_of;

impl Keeper {
    /// Puts a block in the owed ones, unless it is stale.
    pub fn owe(&mut self, block: u32)
        requires { block < blocks_of self.old.header }
        ensures { self.new ≡ after_owe block self.old }
    {
        if !self.stale.get(block) && !self.snapshot.has(block) {
            self.later.add(block);
        }
    }

    /// Puts every fresh block that isn't stale in the owed ones, while no flush is under way. It costs the whole bitmap.
    pub fn adopt(&mut self, fresh: &Bits)
        requires rest { (self.old.stage ≡ Rest) ⊎ (self.old.stage ≡ Broken) }
        requires chunk { fresh.now.chunk ≡ self.old.header.chunk }
        requires blocks { length fresh.now.bits ≡ blocks_of self.old.header }
        ensures { self.new ≡ after_adopt fresh.now.bits self.old }
    {
        let chunks = layout_of(&self.header).chunks;
        adopt(&mut self.later, fresh, &self.stale, chunks);
    }
}

/// Puts every fresh block that isn't stale into a set.
fn adopt(owed: &mut BlockSet, fresh: &Bits, stale: &Bits, chunks: u32)
    requires fresh_chunk { fresh.now.chunk ≡ owed.old.chunk }
    requires stale_chunk { stale.now.chunk ≡ owed.old.chunk }
    requires fresh_size { length fresh.now.bits ≡ length owed.old.bits }
    requires stale_size { length stale.now.bits ≡ length owed.old.bits }
    requires some { 0 < owed.old.chunk }
    requires most { owed.old.chunk ≤ 64 }
    requires chunks { chunks ≡ chunk_count owed.old }
    ensures { owed.new ≡ record owed.old { bits = union_of owed.old.bits (difference_of fresh.now.bits stale.now.bits) } }
{
    for chunk in 0..chunks {
        adopt_chunk(owed, fresh, stale, chunk);
    }
}

fn adopt_chunk(owed: &mut BlockSet, fresh: &Bits, stale: &Bits, chunk: u32)
    requires inside { chunk * owed.old.chunk < length owed.old.bits }
    requires fresh_chunk { fresh.now.chunk ≡ owed.old.chunk }
    requires stale_chunk { stale.now.chunk ≡ owed.old.chunk }
    requires fresh_size { length fresh.now.bits ≡ length owed.old.bits }
    requires stale_size { length stale.now.bits ≡ length owed.old.bits }
    requires most { owed.old.chunk ≤ 64 }
    ensures { Adopted owed.old owed.new fresh.now.bits stale.now.bits chunk }
{
    let more = fresh.mask(chunk) & !stale.mask(chunk);
    if more > 0 {
        owed.add_mask(chunk, more);
    }
}
