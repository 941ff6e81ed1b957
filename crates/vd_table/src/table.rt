//! A table from chunks to storage chunks, in which no two chunks have one.

ghost use Rattle.std.specs.Prelude.{◌≡◌, ◌≢◌, ℕ, ◌+◌, ◌<◌, ◌↔◌, None, Some, IsErr, IfOk, IfErr, OnOk, OnErr, length, replicate, slice_get};
ghost use Rattle.vd_table.specs.Tables.{Has, used_chunks, with_storage, IsOneToOne, IsLeastFree, HindersStorage, IsFirstStorageHindrance};

use std::alloc::Global;
use std::marker::Model;
use vd_bits::marked::Marked;
use vd_law::entry::NoMemory;

/// Each storage chunk is used. `used` is their number.
#[derive(Clone, Copy, Debug, PartialEq, Eq, Drop)]
pub struct Full {
    pub used: u32,
}

/// The lowest chunk that keeps a storage chunk from another one.
#[derive(Clone, Copy, Debug, PartialEq, Eq, Drop)]
pub struct Taken {
    pub by: u32,
}

/// Beside the storage chunk of each chunk it keeps the chunk of each storage chunk, and the set of the free ones.
#[derive(Drop)]
pub struct Table {
    pub(crate) storage: Vec<Option<u32>>,
    owners: Vec<Option<u32>>,
    free: Marked,
}

impl Model for Table {
    ghost use Rattle.std.specs.Prelude.{length};
    ghost use Rattle.vd_table.specs.Tables.{TableState};
    ghost use Rattle.vd_table.specs.TableFields.{IsLinked};

    ghost Value = { TableState };

    ghost view = { λ table. record { chunks = table.storage.items; storage = length table.owners.items } };

    ghost invariant = { λ table. IsLinked table.storage.items table.owners.items table.free };
}

impl Table {
    /// A table for `chunks` chunks, all without storage, and `storage` storage chunks.
    pub fn new(alloc: Global, chunks: u32, storage: u32) -> Result<Table, NoMemory>
        ensures { IfOk result (λ table. table ≡ record { chunks = replicate chunks None; storage = storage }) }
    {
        let mut free = Marked::new(alloc, storage as u64)?;
        free.mark_all();
        Ok(Table {
            storage: vec![in alloc; None; chunks as usize]?,
            owners: vec![in alloc; None; storage as usize]?,
            free,
        })
    }

    /// Takes all storage away.
    pub fn reset(&mut self)
        ensures { self.new ≡ record self.old { chunks = replicate (length self.old.chunks) None } }
    {
        self.storage.fill(None);
        self.owners.fill(None);
        self.free.mark_all();
    }

    /// The storage chunk of a chunk.
    pub fn get(&self, chunk: u32) -> Option<u32>
        requires { chunk < length self.now.chunks }
        ensures storage { slice_get self.now.chunks chunk ≡ Some result }
        ensures one_to_one { IsOneToOne self.now }
    {
        self.storage[chunk as usize]
    }

    /// How many storage chunks no chunk has.
    pub fn free(&self) -> u32
        ensures { result + used_chunks self.now ≡ self.now.storage }
    {
        self.free.count() as u32
    }

    /// Gives a chunk without storage the least free storage chunk.
    pub fn take(&mut self, chunk: u32) -> Result<u32, Full>
        requires { slice_get self.old.chunks chunk ≡ Some None }
        ensures full { IsErr result ↔ (used_chunks self.old ≡ self.old.storage) }
        ensures used { IfErr result (λ full. full.used ≡ self.old.storage) }
        ensures unchanged { OnErr result (self.new ≡ self.old) }
        ensures least { IfOk result (IsLeastFree self.old) }
        ensures given { IfOk result (λ p. self.new ≡ with_storage self.old chunk p) }
    {
        let Some(least) = self.free.first() else {
            return Err(Full {
                used: self.owners.len() as u32,
            });
        };
        let p = least as u32;
        self.give(chunk, p);
        Ok(p)
    }

    /// Gives a chunk a storage chunk, unless another chunk has that or the chunk has another.
    pub fn set(&mut self, chunk: u32, p: u32) -> Result<(), Taken>
        requires chunk { chunk < length self.old.chunks }
        requires storage { p < self.old.storage }
        ensures taken { IfErr result (λ taken. IsFirstStorageHindrance self.old chunk p taken.by) }
        ensures unchanged { OnErr result (self.new ≡ self.old) }
        ensures free { OnOk result ((by : ℕ) → HindersStorage self.old chunk p by → ⊥) }
        ensures given { OnOk result (self.new ≡ with_storage self.old chunk p) }
    {
        let by = match (self.storage[chunk as usize], self.owners[p as usize]) {
            (None, None) => {
                self.give(chunk, p);
                return Ok(());
            }
            (None, Some(owner)) => owner,
            (Some(_), None) => chunk,
            (Some(_), Some(owner)) if owner == chunk => return Ok(()),
            (Some(_), Some(owner)) => owner.min(chunk),
        };
        Err(Taken { by })
    }

    fn give(&mut self, chunk: u32, p: u32)
        requires none { slice_get self.old.chunks chunk ≡ Some None }
        requires storage { p < self.old.storage }
        requires free { (other : ℕ) → Has self.old other p → ⊥ }
        ensures { self.new ≡ with_storage self.old chunk p }
    {
        self.storage[chunk as usize] = Some(p);
        self.owners[p as usize] = Some(chunk);
        self.free.unmark(p as u64);
    }
}
