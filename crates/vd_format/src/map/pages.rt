//! The entries of all chunks.

ghost use Rattle.std.specs.Prelude.{ℕ, ◌≡◌, ◌+◌, ◌*◌, ◌<◌, ◌≤◌, length, replicate, take, drop, slice_get, slice_set, Some, IfOk};
ghost use Rattle.vd_format.specs.declared.map.Entry.{Entry};
ghost use Rattle.vd_format.specs.Entries.{empty_entry, entry_bytes, page_bytes, bytes_at};

use crate::map::Entry;
use crate::map::entries::put_entry;
use std::alloc::Global;
use std::marker::Model;
use vd_law::entry::{NoMemory, Sector};

const EMPTY: Entry = Entry {
    storage: 0,
    zeros: false,
    mask: 0,
};

/// The entry of each chunk, by the chunk's number. What the entries say is not judged here.
#[derive(Drop)]
pub struct Map {
    entries: Vec<Entry>,
}

impl Model for Map {
    ghost use Rattle.std.specs.Prelude.{List};
    ghost use Rattle.vd_format.specs.declared.map.Entry.{Entry};

    ghost Value = { List Entry };

    ghost view = { λ m. m.entries.items };
}

/// A sector of the map with these entries, at most 32, and zeros behind them.
pub fn page_of(entries: &[Entry]) -> Sector
    requires { length entries.now ≤ 32 }
    ensures { result.bytes ≡ page_bytes entries.now }
{
    let mut sector = Sector::filled(0);
    for (place, entry) in entries.iter().enumerate() {
        put_entry(&mut sector.bytes, 16 * place, entry);
    }
    sector
}

impl Map {
    /// Entries of zeros for so many chunks. No other call takes memory.
    pub fn new(alloc: Global, chunks: u32) -> Result<Map, NoMemory>
        ensures { IfOk result (λ map. map ≡ replicate chunks empty_entry) }
    {
        Ok(Map {
            entries: vec![in alloc; EMPTY; chunks as usize]?,
        })
    }

    /// The entry of a chunk.
    pub fn get(&self, chunk: u32) -> Entry
        requires { chunk < length self.now }
        ensures { slice_get self.now chunk ≡ Some result }
    {
        self.entries[chunk as usize]
    }

    /// Gives a chunk this entry. All others stay.
    pub fn put(&mut self, chunk: u32, entry: Entry)
        requires { chunk < length self.old }
        ensures { self.new ≡ slice_set self.old chunk entry }
    {
        self.entries[chunk as usize] = entry;
    }

    /// The sector of the map with this number, from 0: the entries of the 32 chunks from `32 * page` on, and zeros past the last.
    pub fn page(&self, page: u64) -> Sector
        requires { 32 * page < length self.now }
        ensures bytes { result.bytes ≡ page_bytes (take 32 (drop (32 * page) self.now)) }
        // Each entry stands in its place.
        ensures entries { (place : ℕ) (entry : Entry) → place < 32
            → slice_get self.now (32 * page + place) ≡ Some entry → bytes_at result place ≡ entry_bytes entry }
    {
        let chunks = self.entries.len();
        let first = 32 * page as usize;
        let end = chunks.min(first + 32);
        page_of(&self.entries[first..end])
    }
}
