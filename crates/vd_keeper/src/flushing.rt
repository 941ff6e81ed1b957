//! The stages of a flush.

ghost use Rattle.std.specs.Prelude.{◌≡◌, ◌⊎◌, ◌<◌, ◌≤◌, ◌+◌, ◌*◌, ◌/◌, ◌^◌, ◌==◌, ◌&&◌, ℕ, true, false, not, length, map, nat_lt, IsTrue, ◌↔◌};
ghost use Rattle.std.specs.List.{list_any, range_with_len};
ghost use Rattle.vd_format.specs.Layouts.{blocks_of};
ghost use Rattle.vd_keeper.specs.declared.stage.Stage.TheVariants.{Rest, Puts, Seals, Broken};
ghost use Rattle.vd_keeper.specs.declared.stage.Route.TheVariants.{Recycle};
ghost use Rattle.vd_keeper.specs.Flushes.{is_recycle, last_generation};
ghost use Rattle.vd_keeper.specs.Entries.{union_of, chunks_with};
ghost use Rattle.vd_keeper.specs.Moves.{HasPutDue, is_worn_out, way_of, after_begin, after_call, after_put, after_sync, after_data, after_break, is_settling, after_seal, pages_with, next_header, none_of};
ghost use Rattle.vd_keeper.specs.Sets.{chunks_from, chunk_count};

use crate::keeper::Keeper;
use crate::sets::{BlockSet, clear, join};
use crate::stage::{Route, Stage, Way};
use vd_bits::marked::Marked;
use vd_format::Header;

const LAST_GENERATION: u64 = 9_223_372_036_854_775_807;

impl Keeper {
    /// The way of a flush that begins now.
    fn way_for(&self, route: Route) -> Way
        requires { (self.now.stage ≡ Rest) ⊎ (self.now.stage ≡ Broken) }
        ensures { result ≡ way_of route self.now }
    {
        match route {
            Route::Recycle { tracked } => Way::Recycle { tracked },
            Route::Owed => {
                let chunks = self.later.chunks();
                let left = u64::from(self.header.slots - self.next);
                if !self.sure || left < (chunks + 23) / 24 {
                    Way::Recycle {
                        tracked: self.header.tracked,
                    }
                } else if chunks == 0 {
                    Way::Nothing
                } else {
                    Way::Records
                }
            }
        }
    }

    /// Begins a flush: what is owed is its snapshot. False exactly where a recycle is needed at the last generation; then nothing
    /// changes. `tracked` of a recycle is at most the one that is kept.
    pub fn begin(&mut self, route: Route) -> bool
        requires rest { (self.old.stage ≡ Rest) ⊎ (self.old.stage ≡ Broken) }
        requires tracked { (t : ℕ) → route ≡ Recycle t → t ≤ self.old.header.tracked }
        ensures worn { result ≡ not (is_worn_out route self.old) }
        ensures begun { result ≡ true → self.new ≡ after_begin route self.old }
        ensures unchanged { result ≡ false → self.new ≡ self.old }
    {
        let way = self.way_for(route);
        if is_recycle(way) && self.header.generation == LAST_GENERATION {
            return false;
        }
        std::mem::swap(&mut self.later, &mut self.snapshot);
        mark_pages(&self.snapshot, &mut self.marked);
        self.stage = Stage::DataFlush;
        self.way = way;
        self.from = 0;
        self.logged = 0;
        self.head = false;
        true
    }

    /// Goes on once the data flush, a put or a flush of puts has ended. After a failure what was owed is owed still, and sectors
    /// of the map that were put are marked again.
    pub fn settled(&mut self, ok: bool)
        requires stage { is_settling self.old.stage ≡ true }
        ensures done { ok ≡ true → self.new ≡ after_call self.old.stage self.old }
        ensures failed { ok ≡ false → self.new ≡ after_break self.old }
    {
        if ok {
            self.go_on();
        } else {
            self.give_up();
        }
    }

    fn go_on(&mut self)
        ensures { self.new ≡ after_call self.old.stage self.old }
    {
        match self.stage {
            Stage::DataFlush => self.stage = after_data(self.way),
            Stage::Puts => self.stage = self.after_put(),
            Stage::Syncs => {
                clear(&mut self.put);
                self.stage = after_sync(self.head, self.way);
            }
            Stage::Rest | Stage::Seals | Stage::Broken => {}
        }
    }

    fn give_up(&mut self)
        ensures { self.new ≡ after_break self.old }
    {
        self.stage = Stage::Broken;
        self.snapshot.join(&mut self.later);
        join(&mut self.put, &mut self.marked);
    }

    fn after_put(&self) -> Stage
        ensures { result ≡ after_put self.now self.now.way }
    {
        match self.way {
            Way::Nothing => Stage::Syncs,
            Way::Records => {
                if self.snapshot.next(self.from).is_some() {
                    Stage::Puts
                } else {
                    Stage::Syncs
                }
            }
            Way::Recycle { .. } => {
                if !self.head && self.marked.count() > 0 {
                    Stage::Puts
                } else {
                    Stage::Syncs
                }
            }
        }
    }

    /// Whether there is something to put.
    pub fn is_due(&self) -> bool
        ensures { IsTrue result ↔ HasPutDue self.now }
    {
        match self.way {
            Way::Nothing => false,
            Way::Records => self.snapshot.next(self.from).is_some(),
            Way::Recycle { .. } => !self.head,
        }
    }

    /// Ends a flush: its blocks are stale, and after a recycle the next header is the kept one.
    pub fn seal(&mut self)
        requires { self.old.stage ≡ Seals }
        ensures { self.new ≡ after_seal self.old }
    {
        self.snapshot.pour(&mut self.stale);
        self.stage = Stage::Rest;
        if let Way::Recycle { tracked } = self.way {
            self.header = next_header(&self.header, tracked);
            self.sure = true;
            self.next = 0;
        }
    }
}

/// The header that a recycle writes.
pub(crate) fn next_header(header: &Header, tracked: u64) -> Header
    requires { header.now.generation < last_generation }
    ensures { result ≡ record header.now { tracked = tracked; generation = header.now.generation + 1 } }
{
    Header {
        tracked,
        generation: header.generation + 1,
        ..*header
    }
}

fn is_recycle(way: Way) -> bool
    ensures { result ≡ is_recycle way }
{
    match way {
        Way::Recycle { .. } => true,
        Way::Records | Way::Nothing => false,
    }
}

fn after_data(way: Way) -> Stage
    ensures { result ≡ after_data way }
{
    match way {
        Way::Nothing => Stage::Seals,
        Way::Records | Way::Recycle { .. } => Stage::Puts,
    }
}

fn after_sync(head: bool, way: Way) -> Stage
    ensures { result ≡ after_sync head way }
{
    match way {
        Way::Recycle { .. } if !head => Stage::Puts,
        _ => Stage::Seals,
    }
}

/// Marks the sectors of the map that have a chunk of the set.
fn mark_pages(set: &BlockSet, marked: &mut Marked)
    requires enough { chunk_count set.now ≤ 32 * length marked.old }
    requires few { chunk_count set.now < 2 ^ 32 }
    ensures { marked.new ≡ union_of marked.old (pages_with (length marked.old) (chunks_from set.now 0)) }
{
    let mut at = 0;
    while let Some(chunk) = set.next(at) {
        marked.mark(chunk / 32);
        at = chunk + 1;
    }
}
