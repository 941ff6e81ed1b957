//! Ranges of a store that are written with one sector's content, and made durable.

ghost use Rattle.std.specs.Prelude.{◌+◌, ◌<◌, ◌≤◌, length, OnOk, IfErr};
ghost use Rattle.vd_law.specs.declared.entry.Sector.{Sector as AnySector};
ghost use Rattle.vd_device.specs.Tickets.{IsRange};
ghost use Rattle.vd_device.specs.Now.{flush_entries};
ghost use Rattle.vd_device.specs.Stores.{KeepsStore};
ghost use Rattle.vd_device.specs.Quiet.{IsReady, IsCallFault};
ghost use Rattle.vd_make.specs.Putting.{AreAll, TriesWrites, IsRangeWritten, Syncs, Fills};

use vd_device::{Store, flush_now, write_now};
use vd_law::entry::Sector;

/// Writes `content` to the sectors from `first` on, in one ticket.
fn put<S: Store>(store: &mut S, first: u64, content: &[Sector]) -> Result<(), u64>
    requires ready { IsReady S.Store store.old }
    requires range { IsRange (S.sectors store.old) first (length content.now) }
    ensures fault { IfErr result (IsCallFault S.Store store.old store.new) }
    ensures ready { IsReady S.Store store.new }
    ensures keeps { KeepsStore S.Store store.old store.new }
    ensures lays { (v : AnySector) → AreAll v content.now → S.tells store.new
        → TriesWrites v first (first + length content.now) (S.disk store.old) (S.disk store.new) }
    ensures laid { OnOk result ((v : AnySector) → AreAll v content.now → S.tells store.new
        → IsRangeWritten v first (first + length content.now) (S.disk store.new)) }
{
    write_now(store, first, content)
}

/// Makes durable what was written.
fn sync<S: Store>(store: &mut S) -> Result<(), u64>
    requires ready { IsReady S.Store store.old }
    ensures fault { IfErr result (IsCallFault S.Store store.old store.new) }
    ensures ready { IsReady S.Store store.new }
    ensures keeps { KeepsStore S.Store store.old store.new }
    ensures syncs { S.tells store.new → Syncs (flush_entries (S.last store.new) result) (S.disk store.old) (S.disk store.new) }
{
    flush_now(store)
}

/// Writes the sectors from `from` up to `to` with the content that `content` repeats, in tickets of at most as many.
fn lay<S: Store>(store: &mut S, content: &[Sector], from: u64, to: u64) -> Result<(), u64>
    requires ready { IsReady S.Store store.old }
    requires some { (0 < length content.now) × (length content.now ≤ 2048) }
    requires range { (from ≤ to) × (to ≤ S.sectors store.old) }
    ensures fault { IfErr result (IsCallFault S.Store store.old store.new) }
    ensures ready { IsReady S.Store store.new }
    ensures keeps { KeepsStore S.Store store.old store.new }
    ensures lays { (v : AnySector) → AreAll v content.now → S.tells store.new → TriesWrites v from to (S.disk store.old) (S.disk store.new) }
    ensures laid { OnOk result ((v : AnySector) → AreAll v content.now → S.tells store.new → IsRangeWritten v from to (S.disk store.new)) }
{
    let most = content.len() as u64;
    let mut at = from;
    while at < to {
        let some = (to - at).min(most);
        put(store, at, &content[..some as usize])?;
        at += some;
    }
    Ok(())
}

/// Writes the sectors from `from` up to `to` with the content that `content` repeats, and makes them durable. The error is
/// the failed ticket's number.
pub fn fill<S: Store>(store: &mut S, content: &[Sector], from: u64, to: u64) -> Result<(), u64>
    requires ready { IsReady S.Store store.old }
    requires some { (0 < length content.now) × (length content.now ≤ 2048) }
    requires range { (from ≤ to) × (to ≤ S.sectors store.old) }
    ensures fault { IfErr result (IsCallFault S.Store store.old store.new) }
    ensures ready { IsReady S.Store store.new }
    ensures keeps { KeepsStore S.Store store.old store.new }
    ensures fills { (v : AnySector) → AreAll v content.now → S.tells store.new → Fills result v from to (S.disk store.old) (S.disk store.new) }
{
    lay(store, content, from, to)?;
    sync(store)
}
