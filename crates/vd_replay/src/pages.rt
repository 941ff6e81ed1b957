//! Reading the map of an image of version 2.

ghost use Rattle.std.specs.Prelude.{ℕ, ◌≡◌, ◌+◌, ◌-◌, ◌*◌, ◌/◌, ◌%◌, ◌^◌, ◌<◌, ◌≤◌, [], length, min, slice_index_or, IfOk, IfErr, OnOk, Ok};
ghost use Rattle.vd_law.specs.declared.entry.Sector.{Sector as AnySector};
ghost use Rattle.vd_device.specs.Tickets.{IsRange};
ghost use Rattle.vd_device.specs.Quiet.{IsReady, OnlyReads, IsStoreFault};
ghost use Rattle.vd_replay.specs.Looking.{IsArea};
ghost use Rattle.vd_replay.specs.Pages.{area_at, chunks_in, AreAt, AreRead, Judged, AreEntries};
ghost use Rattle.vd_format.specs.Background.{zero_sector};

use crate::area::MOST;
use vd_device::{Store, read_only};
use vd_format::{Map, Shape2, read_entry};
use vd_law::entry::Sector;

/// An entry outside the grammar.
#[derive(Clone, Copy, Drop)]
pub struct BadEntry {
    pub chunk: u32,
    /// Its storage field.
    pub value: u32,
}

/// Takes over the entries of the chunks from `first` to before `end`, with which the sector begins.
fn take_page(
    sector: &Sector,
    first: u32,
    end: u32,
    shape: &Shape2,
    pages: &mut Map,
) -> Result<(), BadEntry>
    requires inside { end ≤ length pages.old }
    requires few { end ≤ first + 32 }
    requires page { first % 32 ≡ 0 }
    requires some { first ≤ end }
    ensures size { length pages.new ≡ length pages.old }
    ensures grammar { AreEntries shape.now first pages.old → OnOk result (AreEntries shape.now end pages.new) }
    ensures judged { (at : ℕ → AnySector) → at (first / 32) ≡ sector.now → AreRead shape.now at first pages.old
        → Judged shape.now at end pages.new result }
{
    for chunk in first..end {
        match read_entry(sector, chunk - first, shape, chunk) {
            Ok(entry) => pages.put(chunk, entry),
            Err(value) => return Err(BadEntry { chunk, value }),
        }
    }
    Ok(())
}

/// Takes over the entries in these sectors of the map, the first of which has the number `page`, where all before them were
/// good. The first bad entry ends it.
fn take_pages(
    sectors: &[Sector],
    page: u32,
    shape: &Shape2,
    pages: &mut Map,
    judged: Result<(), BadEntry>,
) -> Result<(), BadEntry>
    requires chunks { length pages.old ≡ shape.now.chunks }
    requires inside { 32 * (page + length sectors.now) < shape.now.chunks + 32 }
    requires many { shape.now.chunks < 2 ^ 31 }
    requires judged { OnOk judged (AreEntries shape.now (chunks_in shape.now page) pages.old) }
    ensures size { length pages.new ≡ length pages.old }
    ensures grammar { OnOk result (AreEntries shape.now (chunks_in shape.now (page + length sectors.now)) pages.new) }
    ensures judged { (at : ℕ → AnySector) → AreAt at page sectors.now → Judged shape.now at (chunks_in shape.now page) pages.old judged
        → Judged shape.now at (chunks_in shape.now (page + length sectors.now)) pages.new result }
{
    judged?;
    let mut first = 32 * page;
    for sector in sectors {
        let end = shape.chunks.min(first + 32);
        take_page(sector, first, end, shape, pages)?;
        first += 32;
    }
    Ok(())
}

/// Reads the map, which begins at sector `from`, whole. The inner error is the first entry outside the grammar.
pub fn read_map<S: Store>(
    store: &mut S,
    room: &mut [Sector],
    from: u64,
    shape: &Shape2,
    pages: &mut Map,
) -> Result<Result<(), BadEntry>, u64>
    requires ready { IsReady S.Store store.old }
    requires room { length room.old ≡ MOST }
    requires area { IsArea (S.sectors store.old) from ((shape.now.chunks + 31) / 32) }
    requires chunks { length pages.old ≡ shape.now.chunks }
    requires many { shape.now.chunks < 2 ^ 31 }
    ensures fault { IfErr result (IsStoreFault S.Store store.old store.new) }
    ensures quiet { OnlyReads S.Store store.old store.new }
    ensures size { length pages.new ≡ length pages.old }
    ensures grammar { IfOk result (λ judged. OnOk judged (AreEntries shape.now shape.now.chunks pages.new)) }
    ensures judged { IfOk result (λ judged. S.tells store.new → Judged shape.now (area_at (S.disk store.new).held from) shape.now.chunks pages.new judged) }
{
    let count = shape.chunks.div_ceil(32);
    let mut done = 0;
    let mut judged = Ok(());
    while done < count {
        let some = (count - done).min(2048);
        let sectors = &mut room[..some as usize];
        read_only(store, from + u64::from(done), sectors)?;
        judged = take_pages(sectors, done, shape, pages, judged);
        done += some;
    }
    Ok(judged)
}
