//! What a flush puts.

ghost use Rattle.std.specs.Prelude.{◌≡◌, ◌<◌, ◌+◌, ◌-◌, ◌*◌, true, false, length, take, drop};
ghost use Rattle.vd_format.specs.Headers.{IsValid};
ghost use Rattle.vd_format.specs.Layouts.{chunks_of};
ghost use Rattle.vd_format.specs.Entries.{page_bytes};
ghost use Rattle.vd_format.specs.Records.{record_bytes};
ghost use Rattle.vd_keeper.specs.declared.stage.Stage.TheVariants.{Puts};
ghost use Rattle.vd_keeper.specs.Entries.{HasStorage, union_of, map_entry, entries_on_page};
ghost use Rattle.vd_keeper.specs.Moves.{HasPutDue, IsNextPut};
ghost use Rattle.vd_keeper.specs.Sets.{chunks_from};
ghost use Rattle.vd_keeper.specs.Putting.{HasFittingSizes, HasEach, facts_of_record};

use crate::flushing::next_header;
use crate::keeper::Keeper;
use crate::sets::BlockSet;
use crate::stage::{Put, Way};
use vd_bits::bits::Bits;
use vd_format::{
    Entry, Fact2, Facts2, Header, Shape2, layout_of, page_of, write_header, write_record2,
};
use vd_law::entry::Sector;
use vd_table::table::Table;

const MOST_FACTS: u32 = 24;

const NO_ENTRY: Entry = Entry {
    storage: 0,
    zeros: false,
    mask: 0,
};

impl Keeper {
    /// What is written next, which counts as put from now on: a slot is used, a sector of the map has no mark, and a header that
    /// was put leaves the kept one unsure.
    pub fn put(&mut self, table: &Table) -> Put
        requires stage { self.old.stage ≡ Puts }
        requires storage { HasStorage table.now self.old }
        requires due { HasPutDue self.old }
        ensures next { IsNextPut table.now self.old result self.new }
    {
        match self.way {
            Way::Records => {
                let (sector, from, count) = record_of(
                    &self.header,
                    &self.stale,
                    &self.snapshot,
                    table,
                    self.from,
                );
                let slot = self.next;
                self.next += 1;
                self.from = from;
                self.logged += u64::from(count);
                Put::Record { slot, sector }
            }
            Way::Recycle { tracked } => match self.marked.first() {
                Some(at) => {
                    let sector = map_page(&self.header, &self.stale, &self.snapshot, table, at);
                    self.marked.unmark(at);
                    self.put.mark(at);
                    Put::Page { at, sector }
                }
                None => {
                    let sector = write_header(&next_header(&self.header, tracked));
                    // From this put on a crash may leave the next header, by which no record counts: nothing is
                    // sealed by records until a recycle has succeeded.
                    self.sure = false;
                    self.head = true;
                    Put::Head { sector }
                }
            },
            Way::Nothing => unreachable!(),
        }
    }
}

/// The entry of a chunk: its stale blocks and those of the snapshot, with its storage where there are any.
#[tactic(auto, unfolding(crate::specs::Entries::map_entry))]
fn entry_for(header: &Header, stale: &Bits, snapshot: &BlockSet, table: &Table, chunk: u32) -> Entry
    requires source { HasFittingSizes header.now stale.now snapshot.now table.now }
    requires chunk { chunk < chunks_of header.now }
    ensures { result ≡ map_entry header.now table.now (union_of stale.now.bits snapshot.now.bits) chunk }
{
    let _most = header.storage;
    let mask = stale.mask(chunk) | snapshot.mask(chunk);
    if mask == 0 {
        return NO_ENTRY;
    }
    let storage = match table.get(chunk) {
        Some(storage) => storage + 1,
        None => 0,
    };
    Entry {
        storage,
        zeros: false,
        mask,
    }
}

/// The facts of the next record, and the chunk from which on the chunks after it come.
fn next_facts(
    header: &Header,
    stale: &Bits,
    snapshot: &BlockSet,
    table: &Table,
    from: u64,
) -> (Facts2, u64)
    requires source { HasFittingSizes header.now stale.now snapshot.now table.now }
    ensures facts { result.0 ≡ facts_of_record header.now table.now stale.now snapshot.now from }
    ensures rest { chunks_from snapshot.now result.1 ≡ drop 24 (chunks_from snapshot.now from) }
{
    let mut facts = Facts2::new();
    let mut at = from;
    while facts.len() < MOST_FACTS {
        let Some(next) = snapshot.next(at) else {
            return (facts, at);
        };
        let chunk = next as u32;
        let entry = entry_for(header, stale, snapshot, table, chunk);
        facts.push(Fact2 { chunk, entry });
        at = next + 1;
    }
    (facts, at)
}

/// The next record, the chunk from which on the chunks after it come, and how many chunks it has.
fn record_of(
    header: &Header,
    stale: &Bits,
    snapshot: &BlockSet,
    table: &Table,
    from: u64,
) -> (Sector, u64, u32)
    requires source { HasFittingSizes header.now stale.now snapshot.now table.now }
    requires valid { IsValid header.now }
    requires storage { HasEach header.now stale.now.bits snapshot.now.bits table.now }
    requires some { 0 < length (chunks_from snapshot.now from) }
    ensures bytes { result.0.bytes ≡ record_bytes header.now.generation (facts_of_record header.now table.now stale.now snapshot.now from) }
    ensures rest { chunks_from snapshot.now result.1 ≡ drop 24 (chunks_from snapshot.now from) }
    ensures count { result.2 ≡ length (take 24 (chunks_from snapshot.now from)) }
{
    let layout = layout_of(header);
    let shape = Shape2 {
        chunks: layout.chunks,
        storage: header.storage,
        blocks: layout.blocks,
        chunk: header.chunk,
        generation: header.generation,
    };
    let (facts, rest) = next_facts(header, stale, snapshot, table, from);
    let sector = write_record2(&facts, &shape);
    (sector, rest, facts.len())
}

/// A sector of the map.
fn map_page(header: &Header, stale: &Bits, snapshot: &BlockSet, table: &Table, page: u64) -> Sector
    requires source { HasFittingSizes header.now stale.now snapshot.now table.now }
    requires valid { IsValid header.now }
    requires page { 32 * page < chunks_of header.now }
    ensures { result.bytes ≡ page_bytes (entries_on_page header.now table.now (union_of stale.now.bits snapshot.now.bits) page) }
{
    let chunks = layout_of(header).chunks;
    let first = 32 * page as u32;
    let count = (chunks - first).min(32);
    let mut entries = [NO_ENTRY; 32];
    for place in 0..count {
        entries[place as usize] = entry_for(header, stale, snapshot, table, first + place);
    }
    page_of(&entries[..count as usize])
}
