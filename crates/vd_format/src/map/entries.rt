//! The entry of a chunk, as 16 bytes.

ghost use Rattle.std.specs.Prelude.{ℕ, ◌≡◌, ◌+◌, ◌*◌, ◌^◌, ◌<◌, ◌≤◌, ◌↔◌, length, nat_lt, Ok, Err};
ghost use Rattle.vd_format.specs.declared.map.Entry.{Entry};
ghost use Rattle.vd_format.specs.Numbers.{IsBytes, put_at};
ghost use Rattle.vd_format.specs.Entries.{Fits, entry_bytes, entry_from, has_kind, blocks_in, is_entry, entry_or_storage, SpellsEntry, IsBadEntry};

use crate::map::{Entry, Shape2};
use crate::numbers::{put_u32, put_u64, u32_at, u64_at};
use vd_law::entry::Sector;

/// The entry that stands from this byte on, whatever it is.
#[tactic(auto, unfolding(crate::specs::Entries::entry_from))]
pub fn entry_from(bytes: &[u8], at: usize) -> Entry
    requires { at + 16 ≤ length bytes.now }
    ensures { result ≡ entry_from bytes.now at }
{
    Entry {
        storage: u32_at(bytes, at),
        zeros: u32_at(bytes, at + 4) != 0,
        mask: u64_at(bytes, at + 8),
    }
}

/// Whether its kind is one that there is.
#[tactic(auto, unfolding(crate::specs::Entries::has_kind))]
pub fn has_kind(bytes: &[u8], at: usize) -> bool
    requires { at + 16 ≤ length bytes.now }
    ensures { result ≡ has_kind bytes.now at }
{
    u32_at(bytes, at + 4) <= 1
}

fn blocks_in(shape: &Shape2, chunk: u32) -> u32
    ensures { result ≡ blocks_in shape.now chunk }
{
    let before = u64::from(chunk) * u64::from(shape.chunk);
    let rest = u64::from(shape.blocks).saturating_sub(before);
    64.min(u64::from(shape.chunk).min(rest)) as u32
}

fn is_mask(mask: u64, blocks: u32) -> bool
    requires { blocks ≤ 64 }
    ensures { result ≡ nat_lt mask (2 ^ blocks) }
{
    blocks == 64 || mask >> blocks == 0
}

/// Whether the entry is in the grammar of this chunk.
#[tactic(auto, unfolding(crate::specs::Entries::is_entry))]
pub fn is_entry(shape: &Shape2, chunk: u32, entry: &Entry) -> bool
    ensures grammar { result ≡ is_entry shape.now chunk entry.now }
    ensures small { shape.now.storage < 2 ^ 32 }
{
    let is_empty = entry.mask == 0;
    entry.storage <= shape.storage
        && !entry.zeros
        && is_mask(entry.mask, blocks_in(shape, chunk))
        && is_empty == (entry.storage == 0)
}

/// Writes the entry from this byte on.
pub fn put_entry(bytes: &mut [u8], at: usize, entry: &Entry)
    requires { at + 16 ≤ length bytes.old }
    ensures { bytes.new ≡ put_at bytes.old at (entry_bytes entry.now) }
{
    put_u32(bytes, at, entry.storage);
    put_u32(bytes, at + 4, u32::from(entry.zeros));
    put_u64(bytes, at + 8, entry.mask);
}

#[tactic(auto, unfolding(crate::specs::Entries::entry_or_storage))]
fn read(bytes: &[u8; 512], at: u32, shape: &Shape2, chunk: u32) -> Result<Entry, u32>
    requires { at < 32 }
    ensures read { result ≡ entry_or_storage shape.now chunk (record { bytes = bytes.now }) at }
    ensures fits { IsBytes bytes.now }
    ensures small { shape.now.storage < 2 ^ 32 }
{
    let place = 16 * at as usize;
    let entry = entry_from(bytes, place);
    if is_entry(shape, chunk, &entry) && has_kind(bytes, place) {
        Ok(entry)
    } else {
        Err(entry.storage)
    }
}

/// The entry of this chunk that stands at place `at`, from 0 to 31, of a sector of the map.
///
/// The error is the entry's storage field. It comes exactly where the entry is outside the grammar: storage above the
/// shape's, a kind other than base, a mask with a block that there is not, storage without blocks or blocks without storage.
pub fn read_entry(sector: &Sector, at: u32, shape: &Shape2, chunk: u32) -> Result<Entry, u32>
    requires { at < 32 }
    ensures read { result ≡ entry_or_storage shape.now chunk sector.now at }
    // An entry is read exactly where the sector spells it and it is in the grammar.
    ensures ok { (entry : Entry) → (result ≡ Ok entry) ↔ SpellsEntry shape.now chunk sector.now at entry }
    ensures err { (storage : ℕ) → (result ≡ Err storage) ↔ IsBadEntry shape.now chunk sector.now at storage }
{
    read(&sector.bytes, at, shape, chunk)
}
