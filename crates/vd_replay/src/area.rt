//! Areas of a store, read in as few tickets as a ticket's 2,048 sectors allow.

ghost use Rattle.std.specs.Prelude.{◌≡◌, ◌+◌, ◌-◌, ◌*◌, ◌^◌, ◌<◌, ◌≤◌, [], length, take, IfOk, IfErr};
ghost use Rattle.vd_device.specs.Tickets.{IsRange};
ghost use Rattle.vd_device.specs.Quiet.{IsReady, OnlyReads, IsStoreFault, sectors_from};
ghost use Rattle.vd_format.specs.Numbers.{are_zeros};
ghost use Rattle.vd_format.specs.Layouts.{sectors_for_bytes};
ghost use Rattle.vd_replay.specs.Fresh.{are_empty, is_empty_area};
ghost use Rattle.vd_replay.specs.Looking.{IsArea, IsEmptyPiece};

use vd_device::{Store, read_only};
use vd_format::numbers::are_zeros;
use vd_law::entry::Sector;

/// How many sectors one ticket reads at the most.
pub const MOST: u64 = 2048;

fn begins_with_zeros(sector: &Sector, bytes: u64) -> bool
    ensures { result ≡ are_zeros (take bytes sector.now.bytes) }
{
    are_zeros(&sector.bytes[..bytes.min(512) as usize])
}

/// Whether the first `bytes` bytes of these sectors are zeros.
fn are_empty(sectors: &[Sector], bytes: u64) -> bool
    ensures { result ≡ are_empty bytes sectors.now }
{
    let mut left = bytes;
    for sector in sectors {
        if !begins_with_zeros(sector, left) {
            return false;
        }
        left = left.saturating_sub(512);
    }
    true
}

/// Reads the sectors from `first` on, and tells whether their first `bytes` bytes are zeros.
fn is_empty_piece<S: Store>(
    store: &mut S,
    room: &mut [Sector],
    first: u64,
    bytes: u64,
) -> Result<bool, u64>
    requires ready { IsReady S.Store store.old }
    requires range { IsRange (S.sectors store.old) first (length room.old) }
    ensures fault { IfErr result (IsStoreFault S.Store store.old store.new) }
    ensures quiet { OnlyReads S.Store store.old store.new }
    ensures read { IfOk result (λ empty. S.tells store.new → IsEmptyPiece (S.disk store.new).held first (length room.old) bytes empty) }
{
    read_only(store, first, room)?;
    Ok(are_empty(room, bytes))
}

/// Whether the area of `bytes` bytes that begins at sector `from` has zeros alone. It is read whole.
pub fn is_empty_area<S: Store>(
    store: &mut S,
    room: &mut [Sector],
    from: u64,
    bytes: u64,
) -> Result<bool, u64>
    requires ready { IsReady S.Store store.old }
    requires room { length room.old ≡ MOST }
    requires area { IsArea (S.sectors store.old) from (sectors_for_bytes bytes) }
    requires few { bytes < 2 ^ 32 }
    ensures fault { IfErr result (IsStoreFault S.Store store.old store.new) }
    ensures quiet { OnlyReads S.Store store.old store.new }
    ensures read { IfOk result (λ empty. S.tells store.new → empty ≡ is_empty_area (S.disk store.new).held from bytes) }
{
    let count = (bytes + 511) / 512;
    let mut done = 0;
    let mut empty = true;
    while done < count {
        let some = (count - done).min(MOST);
        let piece = is_empty_piece(
            store,
            &mut room[..some as usize],
            from + done,
            bytes - 512 * done,
        )?;
        empty &= piece;
        done += some;
    }
    Ok(empty)
}
