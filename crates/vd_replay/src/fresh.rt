//! Whether an image of version 1 is as it was made. One that holds more is not read yet.

ghost use Rattle.std.specs.Prelude.{◌≡◌, ◌≤◌, [], length, IfOk, IfErr};
ghost use Rattle.vd_device.specs.Quiet.{IsReady, OnlyReads, IsStoreFault};
ghost use Rattle.vd_format.specs.Headers.{IsValid};
ghost use Rattle.vd_format.specs.Layouts.{store_need};
ghost use Rattle.vd_replay.specs.Fresh.{is_map_empty, is_fresh};

use crate::area::{MOST, is_empty_area};
use crate::slots::are_slots_free;
use vd_device::Store;
use vd_format::{Header, layout_of};
use vd_law::entry::Sector;

/// Whether no chunk has an entry: the table and the bitmap are zeros.
fn is_map_empty<S: Store>(store: &mut S, room: &mut [Sector], header: &Header) -> Result<bool, u64>
    requires ready { IsReady S.Store store.old }
    requires room { length room.old ≡ MOST }
    requires valid { IsValid header.now }
    requires version { header.now.version ≡ 1 }
    requires large { store_need header.now ≤ S.sectors store.old }
    ensures fault { IfErr result (IsStoreFault S.Store store.old store.new) }
    ensures quiet { OnlyReads S.Store store.old store.new }
    ensures read { IfOk result (λ empty. S.tells store.new → empty ≡ is_map_empty header.now (S.disk store.new).held) }
{
    let layout = layout_of(header);
    let chunks = u64::from(layout.chunks);
    let table = is_empty_area(store, room, layout.table_at, 4 * chunks)?;
    let bits = is_empty_area(store, room, layout.bits_at, 8 * chunks)?;
    Ok(table & bits)
}

/// Whether the image is as it was made: no chunk has an entry, and no record counts.
#[tactic(auto, unfolding(crate::specs::Fresh::is_fresh))]
pub fn is_fresh<S: Store>(store: &mut S, room: &mut [Sector], header: &Header) -> Result<bool, u64>
    requires ready { IsReady S.Store store.old }
    requires room { length room.old ≡ MOST }
    requires valid { IsValid header.now }
    requires version { header.now.version ≡ 1 }
    requires large { store_need header.now ≤ S.sectors store.old }
    ensures fault { IfErr result (IsStoreFault S.Store store.old store.new) }
    ensures quiet { OnlyReads S.Store store.old store.new }
    ensures read { IfOk result (λ fresh. S.tells store.new → fresh ≡ is_fresh header.now (S.disk store.new).held) }
{
    let empty = is_map_empty(store, room, header)?;
    let layout = layout_of(header);
    let free = are_slots_free(
        store,
        room,
        layout.slots_at,
        u64::from(header.slots),
        header.version,
        header.generation,
    )?;
    Ok(empty & free)
}
