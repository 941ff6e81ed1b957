//! Sets of blocks that know which chunks they are in, and moving them.

ghost use Rattle.std.specs.Prelude.{◌≡◌, ℕ, ◌+◌, ◌*◌, ◌/◌, ◌%◌, ◌^◌, ◌<◌, ◌≤◌, false, true, not, Some, length, map, replicate, IfOk, IfSome, IsNone, ◌↔◌, [], ◌==◌, slice_get, slice_set};
ghost use Rattle.std.specs.List.{range_with_len};
ghost use Rattle.vd_bits.specs.Blocks.{Blocks, bits_in};
ghost use Rattle.vd_bits.specs.Masks.{mask_of};
ghost use Rattle.vd_bits.specs.Marks.{IsLowest, NoneFrom};
ghost use Rattle.vd_keeper.specs.Entries.{union_of};
ghost use Rattle.vd_keeper.specs.Sets.{HasMore, LacksChunk, IsNextChunk, marks_of, chunk_count, chunks_from, empty_of, has_any};

use std::alloc::Global;
use std::marker::Model;
use vd_bits::bits::Bits;
use vd_bits::marked::Marked;
use vd_law::entry::NoMemory;

/// A set of blocks whose chunks are found without a walk over all.
#[derive(Drop)]
pub(crate) struct BlockSet {
    blocks: Bits,
    chunk: u32,
    chunks: Marked,
}

impl Model for BlockSet {
    ghost use Rattle.vd_bits.specs.Blocks.{Blocks};

    ghost Value = { Blocks };

    ghost use Rattle.vd_keeper.specs.SetFields.{IsIndexed};

    ghost view = { λ set. set.blocks };

    ghost invariant = { IsIndexed };
}

impl BlockSet {
    /// The empty set of `blocks` blocks, of which `chunk` make a chunk.
    pub(crate) fn new(alloc: Global, blocks: u32, chunk: u32) -> Result<BlockSet, NoMemory>
        requires some { 0 < chunk }
        requires even { 64 % chunk ≡ 0 }
        ensures { IfOk result (λ set. set ≡ record { chunk = chunk; bits = replicate blocks false }) }
    {
        let chunks = (u64::from(blocks) + u64::from(chunk) - 1) / u64::from(chunk);
        Ok(BlockSet {
            blocks: Bits::new(alloc, blocks, chunk)?,
            chunk,
            chunks: Marked::new(alloc, chunks)?,
        })
    }

    pub(crate) fn has(&self, block: u32) -> bool
        requires { block < length self.now.bits }
        ensures { slice_get self.now.bits block ≡ Some result }
    {
        self.blocks.get(block)
    }

    /// Puts a block into the set.
    pub(crate) fn add(&mut self, block: u32)
        requires { block < length self.old.bits }
        ensures { self.new ≡ record self.old { bits = slice_set self.old.bits block true } }
    {
        self.blocks.set(block);
        self.chunks.mark(u64::from(block / self.chunk));
    }

    /// Puts those blocks of a chunk into the set that this mask has, which isn't 0.
    pub(crate) fn add_mask(&mut self, chunk: u32, mask: u64)
        requires inside { chunk * self.old.chunk < length self.old.bits }
        requires exist { mask < 2 ^ length (bits_in self.old chunk) }
        requires some { 0 < mask }
        ensures { HasMore self.old self.new chunk mask }
    {
        let more = self.blocks.mask(chunk) | mask;
        self.blocks.put_mask(chunk, more);
        self.chunks.mark(u64::from(chunk));
    }

    /// How many chunks have a block.
    pub(crate) fn chunks(&self) -> u64
        ensures chunks { result ≡ length (chunks_from self.now 0) }
        ensures few { result < 2 ^ 32 }
    {
        self.chunks.count()
    }

    /// The lowest chunk from `from` on that has a block.
    pub(crate) fn next(&self, from: u64) -> Option<u64>
        ensures next { IfSome result (IsNextChunk self.now from) }
        ensures few { IfSome result (λ chunk. chunk < 2 ^ 32) }
        ensures none { IsNone result ↔ (chunks_from self.now from ≡ []) }
    {
        self.chunks.first_from(from)
    }

    /// The blocks of a chunk.
    pub(crate) fn mask(&self, chunk: u32) -> u64
        requires { chunk * self.now.chunk < length self.now.bits }
        ensures { result ≡ mask_of (bits_in self.now chunk) }
    {
        self.blocks.mask(chunk)
    }

    /// Moves all its blocks.
    pub(crate) fn pour(&mut self, into: &mut Bits)
        requires chunk { into.old.chunk ≡ self.old.chunk }
        requires size { length into.old.bits ≡ length self.old.bits }
        ensures into { into.new ≡ record into.old { bits = union_of into.old.bits self.old.bits } }
        ensures empty { self.new ≡ empty_of self.old }
    {
        pour(&mut self.blocks, &self.chunks, into);
        clear(&mut self.chunks);
    }

    /// Moves all its blocks into another set.
    pub(crate) fn join(&mut self, into: &mut BlockSet)
        requires chunk { into.old.chunk ≡ self.old.chunk }
        requires size { length into.old.bits ≡ length self.old.bits }
        ensures into { into.new ≡ record into.old { bits = union_of into.old.bits self.old.bits } }
        ensures empty { self.new ≡ empty_of self.old }
    {
        pour(&mut self.blocks, &self.chunks, &mut into.blocks);
        join(&mut self.chunks, &mut into.chunks);
    }
}

/// Moves the blocks of one chunk.
fn pour_chunk(from: &mut Bits, into: &mut Bits, chunk: u32)
    requires inside { chunk * from.old.chunk < length from.old.bits }
    requires chunk { into.old.chunk ≡ from.old.chunk }
    requires size { length into.old.bits ≡ length from.old.bits }
    ensures into { HasMore into.old into.new chunk (mask_of (bits_in from.old chunk)) }
    ensures from { LacksChunk from.old from.new chunk }
{
    let more = into.mask(chunk) | from.mask(chunk);
    into.put_mask(chunk, more);
    from.put_mask(chunk, 0);
}

/// Moves all blocks, whose chunks are these.
fn pour(from: &mut Bits, chunks: &Marked, into: &mut Bits)
    requires chunks { chunks.now ≡ marks_of from.old }
    requires chunk { into.old.chunk ≡ from.old.chunk }
    requires some { 0 < from.old.chunk }
    requires few { length from.old.bits < 2 ^ 32 }
    requires size { length into.old.bits ≡ length from.old.bits }
    ensures into { into.new ≡ record into.old { bits = union_of into.old.bits from.old.bits } }
    ensures empty { from.new ≡ empty_of from.old }
{
    let mut at = 0;
    while let Some(chunk) = chunks.first_from(at) {
        pour_chunk(from, into, chunk as u32);
        at = chunk + 1;
    }
}

/// Moves all members.
pub(crate) fn join(from: &mut Marked, into: &mut Marked)
    requires { length into.old ≡ length from.old }
    ensures into { into.new ≡ union_of into.old from.old }
    ensures empty { from.new ≡ replicate (length from.old) false }
{
    while let Some(member) = from.first() {
        into.mark(member);
        from.unmark(member);
    }
}

/// Takes all members away, at the cost of those that there are.
pub(crate) fn clear(set: &mut Marked)
    ensures { set.new ≡ replicate (length set.old) false }
{
    while let Some(member) = set.first() {
        set.unmark(member);
    }
}
