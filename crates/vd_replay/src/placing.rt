//! What the entries of all chunks say of storage, of blocks, and of the map's sectors.

ghost use Rattle.std.specs.Prelude.{ℕ, ◌≡◌, ◌+◌, ◌-◌, ◌*◌, ◌/◌, ◌^◌, ◌<◌, ◌≤◌, ◌↔◌, length, replicate, IsTrue, OnOk, OnErr, IfErr, None, Some, slice_get};
ghost use Rattle.vd_format.specs.Entries.{empty_entry};
ghost use Rattle.vd_bits.specs.Blocks.{bits_in};
ghost use Rattle.vd_replay.specs.Pages.{AreEntries};
ghost use Rattle.vd_replay.specs.Placing.{EachChunkHasBlocks, AreSized, Places, IsTwin, Placed, AreMarked, Differs};

use vd_bits::bits::Bits;
use vd_bits::marked::Marked;
use vd_format::{Entry, Map, Shape2};
use vd_table::table::Table;

/// Two chunks that have one storage chunk.
#[derive(Clone, Copy, Drop)]
pub struct Twins {
    pub first: u32,
    pub second: u32,
}

const NOTHING: Entry = Entry {
    storage: 0,
    zeros: false,
    mask: 0,
};

/// Makes all entries empty.
pub fn clear(map: &mut Map, chunks: u32)
    requires { length map.old ≡ chunks }
    ensures { map.new ≡ replicate chunks empty_entry }
{
    for chunk in 0..chunks {
        map.put(chunk, NOTHING);
    }
}

/// Makes the entries those of another map.
pub fn copy(map: &mut Map, other: &Map, chunks: u32)
    requires size { length map.old ≡ chunks }
    requires other { length other.now ≡ chunks }
    ensures { map.new ≡ other.now }
{
    for chunk in 0..chunks {
        map.put(chunk, other.get(chunk));
    }
}

/// Gives a chunk without storage that of its entry, and the entry's blocks. The error is the chunk that has this storage.
fn place(entry: &Entry, chunk: u32, table: &mut Table, fresh: &mut Bits) -> Result<(), u32>
    requires none { slice_get table.old.chunks chunk ≡ Some None }
    requires storage { entry.now.storage ≤ table.old.storage }
    requires inside { chunk * fresh.old.chunk < length fresh.old.bits }
    requires blocks { entry.now.mask < 2 ^ length (bits_in fresh.old chunk) }
    ensures ok { OnOk result (Places entry.now chunk table.old fresh.old table.new fresh.new) }
    ensures twin { IfErr result (λ by. IsTwin entry.now chunk table.old by) }
    ensures table { OnErr result (table.new ≡ table.old) }
    ensures fresh { OnErr result (fresh.new ≡ fresh.old) }
{
    if entry.storage > 0 {
        if let Err(taken) = table.set(chunk, entry.storage - 1) {
            return Err(taken.by);
        }
    }
    fresh.put_mask(chunk, entry.mask);
    Ok(())
}

/// Makes the table that of the entries, and the bits those of their masks. The error is the lowest chunk that has the storage
/// of one before it, with that one.
pub fn place_all(
    map: &Map,
    shape: &Shape2,
    table: &mut Table,
    fresh: &mut Bits,
) -> Result<(), Twins>
    requires map { length map.now ≡ shape.now.chunks }
    requires entries { AreEntries shape.now shape.now.chunks map.now }
    requires shape { EachChunkHasBlocks shape.now }
    requires sizes { AreSized shape.now table.old fresh.old }
    ensures sizes { AreSized shape.now table.new fresh.new }
    ensures placed { Placed map.now table.new fresh.new result }
{
    table.reset();
    for chunk in 0..shape.chunks {
        let entry = map.get(chunk);
        if let Err(first) = place(&entry, chunk, table, fresh) {
            return Err(Twins {
                first,
                second: chunk,
            });
        }
    }
    Ok(())
}

/// Whether a chunk of this sector of the map has another entry than the sector.
fn differs(map: &Map, pages: &Map, page: u32, chunks: u32) -> bool
    requires map { length map.now ≡ chunks }
    requires pages { length pages.now ≡ chunks }
    requires few { chunks < 2 ^ 31 }
    requires inside { 32 * page < chunks }
    ensures { IsTrue result ↔ Differs map.now pages.now page }
{
    let first = 32 * page;
    let end = chunks.min(first + 32);
    for chunk in first..end {
        if map.get(chunk) != pages.get(chunk) {
            return true;
        }
    }
    false
}

/// Marks the sectors of the map that differ from what the chunks have, and no others.
pub fn mark(map: &Map, pages: &Map, chunks: u32, more: &mut Marked)
    requires map { length map.now ≡ chunks }
    requires pages { length pages.now ≡ chunks }
    requires few { chunks < 2 ^ 31 }
    requires more { length more.old ≡ (chunks + 31) / 32 }
    ensures size { length more.new ≡ length more.old }
    ensures marked { AreMarked map.now pages.now (length more.new) more.new }
{
    for page in 0..chunks.div_ceil(32) {
        if differs(map, pages, page, chunks) {
            more.mark(page.into());
        } else {
            more.unmark(page.into());
        }
    }
}
