//! One truth value for each block of a disk, by chunks.

ghost use Rattle.std.specs.Prelude.{◌≡◌, ℕ, ◌+◌, ◌*◌, ◌%◌, ◌^◌, ◌<◌, ◌≤◌, false, true, Some, length, replicate, IfOk, slice_get, slice_set};
ghost use Rattle.vd_bits.specs.Marks.{count_true};
ghost use Rattle.vd_bits.specs.Masks.{mask_of};
ghost use Rattle.vd_bits.specs.Blocks.{bits_in, with_mask};

use crate::flags::Flags;
use std::alloc::Global;
use std::marker::Model;
use vd_law::entry::NoMemory;

/// A bitmap, which clauses see as a list of truth values with a chunk's number of blocks. Blocks and chunks are counted
/// from 0, and the bits stand 64 to a word.
#[derive(Drop)]
pub struct Bits {
    flags: Flags,
    chunk: u32,
    count: u32,
}

impl Model for Bits {
    ghost use Rattle.vd_bits.specs.Blocks.{Blocks};

    ghost Value = { Blocks };

    ghost use Rattle.vd_bits.specs.BitFields.{blocks_state, IsTallied};

    ghost view = { blocks_state };

    ghost invariant = { IsTallied };
}

impl Bits {
    /// All false, for `blocks` blocks of which `chunk` make a chunk: 1, 2, 4, 8, 16, 32 or 64.
    pub fn new(alloc: Global, blocks: u32, chunk: u32) -> Result<Bits, NoMemory>
        requires some { 0 < chunk }
        requires even { 64 % chunk ≡ 0 }
        ensures { IfOk result (λ bits. bits ≡ record { chunk = chunk; bits = replicate blocks false }) }
    {
        let flags = Flags::new(alloc, blocks as u64)?;
        Ok(Bits {
            flags,
            chunk,
            count: 0,
        })
    }

    /// The bit of a block that exists.
    pub fn get(&self, block: u32) -> bool
        requires { block < length self.now.bits }
        ensures { slice_get self.now.bits block ≡ Some result }
    {
        self.flags.get(block as u64)
    }

    /// Makes the bit of a block true. Every other bit stays.
    pub fn set(&mut self, block: u32)
        requires { block < length self.old.bits }
        ensures { self.new ≡ record self.old { bits = slice_set self.old.bits block true } }
    {
        if !self.flags.get(block as u64) {
            self.flags.put(block as u64, true);
            self.count += 1;
        }
    }

    /// Makes the bit of a block false. Every other bit stays.
    pub fn clear(&mut self, block: u32)
        requires { block < length self.old.bits }
        ensures { self.new ≡ record self.old { bits = slice_set self.old.bits block false } }
    {
        if self.flags.get(block as u64) {
            self.flags.put(block as u64, false);
            self.count -= 1;
        }
    }

    /// Where the blocks of a chunk begin, and how many of them exist.
    fn stretch(&self, chunk_number: u32) -> (u64, u64)
        requires { chunk_number * self.now.chunk < length self.now.bits }
        ensures at { result.0 ≡ chunk_number * self.now.chunk }
        ensures count { result.1 ≡ length (bits_in self.now chunk_number) }
        ensures some { 0 < result.1 }
        ensures one_word { result.0 % 64 + result.1 ≤ 64 }
        ensures inside { result.0 + result.1 ≤ length self.now.bits }
    {
        let at = chunk_number as u64 * self.chunk as u64;
        let count = (self.chunk as u64).min(self.flags.len() - at);
        (at, count)
    }

    /// The mask of a chunk that has a block: bit i is its block i, and bits of blocks that do not exist are 0.
    pub fn mask(&self, chunk_number: u32) -> u64
        requires { chunk_number * self.now.chunk < length self.now.bits }
        ensures { result ≡ mask_of (bits_in self.now chunk_number) }
    {
        let (at, count) = self.stretch(chunk_number);
        self.flags.part(at, count)
    }

    /// Makes the bits of a chunk those of a mask, which has bits of existing blocks alone.
    pub fn put_mask(&mut self, chunk_number: u32, mask: u64)
        requires inside { chunk_number * self.old.chunk < length self.old.bits }
        requires exist { mask < 2 ^ length (bits_in self.old chunk_number) }
        ensures { self.new ≡ with_mask self.old chunk_number mask }
    {
        let (at, count) = self.stretch(chunk_number);
        let before = self.flags.part(at, count);
        self.flags.put_part(at, count, mask);
        self.count = self.count - before.count_ones() + mask.count_ones();
    }

    /// How many are true.
    pub fn count(&self) -> u32
        ensures { result ≡ count_true self.now.bits }
    {
        self.count
    }

    /// Makes all bits those of another bitmap of the same sizes. It costs the whole bitmap.
    pub fn copy_from(&mut self, other: &Bits)
        requires chunk { self.old.chunk ≡ other.now.chunk }
        requires blocks { length self.old.bits ≡ length other.now.bits }
        ensures { self.new ≡ other.now }
    {
        self.flags.copy_from(&other.flags);
        self.count = other.count;
    }
}
