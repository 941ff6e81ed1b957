//! The slots of the journal, and whether a record in them counts.

ghost use Rattle.std.specs.Prelude.{◌≡◌, ◌+◌, ◌^◌, ◌<◌, ◌≤◌, ◌==◌, [], length, not, IfOk, IfErr};
ghost use Rattle.vd_device.specs.Tickets.{IsRange};
ghost use Rattle.vd_device.specs.Quiet.{IsReady, OnlyReads, IsStoreFault, sectors_from};
ghost use Rattle.vd_replay.specs.Fresh.{counts, none_counts};
ghost use Rattle.vd_replay.specs.Looking.{IsArea, IsFreePiece};

use crate::area::MOST;
use vd_device::{Store, read_only};
use vd_format::numbers::u64_at;
use vd_law::entry::Sector;

/// Whether the slot has a record of this version and generation.
#[tactic(auto, unfolding(crate::specs::Fresh::counts, vd_format::specs::Records::record_of, vd_format::specs::Numbers::has_magic))]
fn counts(sector: &Sector, version: u32, generation: u64) -> bool
    requires { 1 ≤ version }
    ensures { result ≡ counts version generation sector.now }
{
    let bytes = &sector.bytes;
    let found = if bytes.starts_with(b"FVDRECO2") {
        2
    } else if bytes.starts_with(b"FVDRECO1") {
        1
    } else {
        return false;
    };
    found == version && u64_at(bytes, 8) == generation
}

fn none_counts(sectors: &[Sector], version: u32, generation: u64) -> bool
    requires { 1 ≤ version }
    ensures { result ≡ none_counts version generation sectors.now }
{
    sectors
        .iter()
        .all(|sector| !counts(sector, version, generation))
}

/// Reads the slots from sector `first` on, and tells whether none of them counts.
fn is_free_piece<S: Store>(
    store: &mut S,
    room: &mut [Sector],
    first: u64,
    version: u32,
    generation: u64,
) -> Result<bool, u64>
    requires ready { IsReady S.Store store.old }
    requires range { IsRange (S.sectors store.old) first (length room.old) }
    requires version { 1 ≤ version }
    ensures fault { IfErr result (IsStoreFault S.Store store.old store.new) }
    ensures quiet { OnlyReads S.Store store.old store.new }
    ensures read { IfOk result (λ free. S.tells store.new → IsFreePiece (S.disk store.new).held first (length room.old) version generation free) }
{
    read_only(store, first, room)?;
    Ok(none_counts(room, version, generation))
}

/// Whether none of the `count` slots from sector `from` on counts in an image of this version and generation. All are read.
pub fn are_slots_free<S: Store>(
    store: &mut S,
    room: &mut [Sector],
    from: u64,
    count: u64,
    version: u32,
    generation: u64,
) -> Result<bool, u64>
    requires ready { IsReady S.Store store.old }
    requires room { length room.old ≡ MOST }
    requires area { IsArea (S.sectors store.old) from count }
    requires few { count < 2 ^ 32 }
    requires version { 1 ≤ version }
    ensures fault { IfErr result (IsStoreFault S.Store store.old store.new) }
    ensures quiet { OnlyReads S.Store store.old store.new }
    ensures read { IfOk result (λ free. S.tells store.new → free ≡ none_counts version generation (sectors_from (S.disk store.new).held from count)) }
{
    let mut done = 0;
    let mut free = true;
    while done < count {
        let some = (count - done).min(MOST);
        let piece = is_free_piece(
            store,
            &mut room[..some as usize],
            from + done,
            version,
            generation,
        )?;
        free &= piece;
        done += some;
    }
    Ok(free)
}
