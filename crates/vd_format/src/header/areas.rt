//! Where the areas of a store stand.

ghost use Rattle.std.specs.Prelude.{◌≡◌, ◌≤◌, ◌<◌, ◌^◌};
ghost use Rattle.vd_format.specs.Headers.{IsValid};
ghost use Rattle.vd_format.specs.Layouts.{blocks_of, chunks_of, table_start, bits_start, map_start, slots_start, storage_start, store_need, sectors_for_bytes, place_of_block};

use crate::header::{Header, Layout};

/// The chunks of the guest's disk.
pub fn chunks_in(header: &Header) -> u64
    requires block { 1 ≤ header.now.block }
    requires chunk { 1 ≤ header.now.chunk }
    requires size { header.now.size ≤ 2 ^ 32 }
    ensures { result ≡ chunks_of header.now }
{
    let chunk = u64::from(header.chunk);
    (header.size / u64::from(header.block) + chunk - 1) / chunk
}

fn sectors_for_bytes(bytes: u64) -> u64
    requires { bytes < 2 ^ 32 }
    ensures { result ≡ sectors_for_bytes bytes }
{
    (bytes + 511) / 512
}

/// The numbers of blocks and chunks, and where each area of the store begins, in sectors from 0.
///
/// The areas stand in the order header, table, bitmap, map (`spare_at`), slots, storage, each where the one before ends.
pub fn layout_of(header: &Header) -> Layout
    requires { IsValid header.now }
    ensures blocks { result.blocks ≡ blocks_of header.now }
    ensures chunks { result.chunks ≡ chunks_of header.now }
    ensures table { result.table_at ≡ table_start }
    ensures bits { result.bits_at ≡ bits_start header.now }
    ensures map { result.spare_at ≡ map_start header.now }
    ensures slots { result.slots_at ≡ slots_start header.now }
    ensures storage { result.storage_at ≡ storage_start header.now }
    ensures need { result.need ≡ store_need header.now }
    // No store needs more than 2^27 sectors.
    ensures fits { result.need < 2 ^ 27 }
{
    let blocks = header.size / u64::from(header.block);
    let chunks = chunks_in(header);
    let bits_at = 1 + sectors_for_bytes(4 * chunks);
    let spare_at = bits_at + sectors_for_bytes(8 * chunks);
    let slots_at = spare_at + sectors_for_bytes(16 * chunks);
    let storage_at = slots_at + u64::from(header.slots);

    Layout {
        blocks: blocks as u32,
        chunks: chunks as u32,
        table_at: 1,
        bits_at,
        spare_at,
        slots_at,
        storage_at,
        need: storage_at
            + u64::from(header.storage) * u64::from(header.chunk) * u64::from(header.block),
    }
}

/// The first sector of guest block `b` in a store whose storage begins at `storage_at`, where the block's chunk has storage
/// chunk `p`. A chunk has so many blocks, and a block so many sectors.
pub fn place_of_block(storage_at: u64, chunk: u64, block: u64, p: u32, b: u64) -> u64
    requires chunk { 0 < chunk }
    requires block { 0 < block }
    requires fits { place_of_block storage_at chunk block p b < 2 ^ 64 }
    ensures { result ≡ place_of_block storage_at chunk block p b }
{
    storage_at + (u64::from(p) * chunk + b % chunk) * block
}
