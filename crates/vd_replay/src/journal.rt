//! Applying the records of the journal, in the order of slots, then of places.

ghost use Rattle.std.specs.Prelude.{ℕ, ◌≡◌, ◌+◌, ◌-◌, ◌*◌, ◌^◌, ◌<◌, ◌≤◌, [], List, length, slice_index_or, IfOk, IfErr, OnOk, Ok};
ghost use Rattle.std.specs.List.{All};
ghost use Rattle.vd_law.specs.declared.entry.Sector.{Sector as AnySector};
ghost use Rattle.vd_format.specs.declared.map.Entry.{Entry as AnyEntry};
ghost use Rattle.vd_format.specs.declared.journal.Fact2.{Fact2 as AnyFact};
ghost use Rattle.vd_format.specs.declared.map.Shape2.{Shape2 as AnyShape};
ghost use Rattle.vd_format.specs.Records.{AreFacts};
ghost use Rattle.vd_device.specs.Tickets.{IsRange};
ghost use Rattle.vd_device.specs.Quiet.{IsReady, OnlyReads, IsStoreFault};
ghost use Rattle.vd_replay.specs.Looking.{IsArea};
ghost use Rattle.vd_replay.specs.Pages.{area_at, AreAt, AreEntries, IsMap};
ghost use Rattle.vd_replay.specs.Journal.{put_facts, AreReplayed, AreTaken, Replayed};
ghost use Rattle.vd_format.specs.Background.{zero_sector};

use crate::area::MOST;
use vd_device::{Store, read_only};
use vd_format::{Facts2, Map, Shape2, Slot2, read_record2};
use vd_law::entry::Sector;

/// Puts the entries of these facts over those of the map.
fn apply(facts: &Facts2, map: &mut Map)
    requires { All (λ (fact : AnyFact). fact.chunk < length map.old) facts.now }
    ensures put { map.new ≡ put_facts map.old facts.now }
    ensures size { length map.new ≡ length map.old }
    ensures grammar { (shape : AnyShape) → AreFacts shape facts.now → AreEntries shape (length map.old) map.old → AreEntries shape (length map.old) map.new }
{
    for place in 0..facts.len() {
        let fact = facts.get(place);
        map.put(fact.chunk, fact.entry);
    }
}

/// Takes over what a slot says. `next` is one past the highest slot before that counts. The error is this slot.
fn take_slot(
    sector: &Sector,
    slot: u32,
    shape: &Shape2,
    map: &mut Map,
    next: u32,
) -> Result<u32, u32>
    requires chunks { length map.old ≡ shape.now.chunks }
    requires slots { slot < 4096 }
    requires within { next ≤ slot }
    ensures size { length map.new ≡ length map.old }
    ensures within { IfOk result (λ after. after ≤ slot + 1) }
    ensures grammar { AreEntries shape.now shape.now.chunks map.old → OnOk result (AreEntries shape.now shape.now.chunks map.new) }
    ensures replayed { (at : ℕ → AnySector) (pages : List AnyEntry) → at slot ≡ sector.now → AreReplayed shape.now at slot pages map.old next
        → Replayed shape.now at (slot + 1) pages map.new result }
{
    match read_record2(sector, shape) {
        Slot2::Other => Ok(next),
        Slot2::Counts(facts) => {
            apply(&facts, map);
            Ok(slot + 1)
        }
        Slot2::Bad => Err(slot),
    }
}

/// Takes over what these slots say, from the one with the number `slot` on, where all before them were good: `so_far` is one
/// past the highest of those that counts. The first bad one ends it.
fn take_slots(
    sectors: &[Sector],
    slot: u32,
    shape: &Shape2,
    map: &mut Map,
    so_far: Result<u32, u32>,
) -> Result<u32, u32>
    requires chunks { length map.old ≡ shape.now.chunks }
    requires slots { slot + length sectors.now ≤ 4096 }
    requires so_far { IfOk so_far (λ next. AreTaken shape.now slot next map.old) }
    ensures size { length map.new ≡ length map.old }
    ensures taken { IfOk result (λ next. AreTaken shape.now (slot + length sectors.now) next map.new) }
    ensures replayed { (at : ℕ → AnySector) (pages : List AnyEntry) → AreAt at slot sectors.now → Replayed shape.now at slot pages map.old so_far
        → Replayed shape.now at (slot + length sectors.now) pages map.new result }
{
    let mut number = slot;
    let mut next = so_far?;
    for sector in sectors {
        next = take_slot(sector, number, shape, map, next)?;
        number += 1;
    }
    Ok(next)
}

/// Reads all `count` slots, which begin at sector `from`, and applies their facts. What it answers is one past the highest slot
/// that counts, 0 where none does; the inner error is the first slot that counts and is outside the grammar.
pub fn replay<S: Store>(
    store: &mut S,
    room: &mut [Sector],
    from: u64,
    count: u32,
    shape: &Shape2,
    map: &mut Map,
) -> Result<Result<u32, u32>, u64>
    requires ready { IsReady S.Store store.old }
    requires room { length room.old ≡ MOST }
    requires area { IsArea (S.sectors store.old) from count }
    requires count { count ≤ 4096 }
    requires map { IsMap shape.now map.old }
    ensures fault { IfErr result (IsStoreFault S.Store store.old store.new) }
    ensures quiet { OnlyReads S.Store store.old store.new }
    ensures size { length map.new ≡ length map.old }
    ensures taken { IfOk result (λ after. IfOk after (λ next. AreTaken shape.now count next map.new)) }
    ensures replayed { IfOk result (λ after. S.tells store.new → Replayed shape.now (area_at (S.disk store.new).held from) count map.old map.new after) }
{
    let mut done = 0;
    let mut so_far = Ok(0);
    while done < count {
        let some = (count - done).min(2048);
        let slots = &mut room[..some as usize];
        read_only(store, from + u64::from(done), slots)?;
        so_far = take_slots(slots, done, shape, map, so_far);
        done += some;
    }
    Ok(so_far)
}
