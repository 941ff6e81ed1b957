//! A state: what an image says, as a disk goes on from it.

ghost use Rattle.std.specs.Prelude.{◌≡◌, ◌⊎◌, ◌^◌, ◌<◌, ◌≤◌, [], true, is_err, length, None, Some, IfOk, IfErr, OnOk, OnErr};
ghost use Rattle.vd_device.specs.Quiet.{IsReady, OnlyReads, AddsFlush, IsStoreFault};
ghost use Rattle.vd_format.specs.Headers.{IsValid};
ghost use Rattle.vd_format.specs.Layouts.{store_need};
ghost use Rattle.vd_image.specs.Image.{geometry_of};
ghost use Rattle.vd_image.specs.Decoders.{shape_of};
ghost use Rattle.vd_replay.specs.Journal.{AreTaken};
ghost use Rattle.vd_replay.specs.Placing.{EachChunkHasBlocks};
ghost use Rattle.vd_replay.specs.Filling.{AreApplied, KeepsSizes, AgreesWithEntries, AreDouble, IsOfReading};
ghost use Rattle.vd_replay.specs.Finding.{Found, ForStore};
ghost use Rattle.vd_replay.specs.States.{IsSized, IsWholeState, IsOpenedState, StateSays};
ghost use Rattle.vd_replay.specs.Refusals.{Unfilled, Refused, RefusedAgain, IsOfReload};

use crate::buffer::ReadBuffer;
use crate::error::OpenError;
use crate::fresh::is_fresh;
use crate::header::find_header;
use crate::journal::replay;
use crate::pages::read_map;
use crate::placing::{clear, copy, mark, place_all};
use std::alloc::Global;
use vd_bits::bits::Bits;
use vd_bits::marked::Marked;
use vd_device::Store;
use vd_format::{Header, Map, Shape2, layout_of};
use vd_law::entry::NoMemory;
use vd_table::table::Table;

/// Where the next record goes.
#[derive(Clone, Copy, Debug, PartialEq, Eq, Drop)]
pub struct Cursor {
    /// The slot of the next record, which is `slots` where all are used.
    pub next: u32,
    pub slots: u32,
}

/// What an image says. A state that is void says nothing but its sizes, until it is read again with success.
#[derive(Drop)]
pub struct State {
    pub header: Header,
    /// The storage chunk of each chunk.
    pub table: Table,
    /// The blocks that are local.
    pub fresh: Bits,
    /// The entry of each chunk.
    pub map: Map,
    /// The sectors of the map, from 0, of which a chunk has another entry than they say.
    pub more: Marked,
    pub cursor: Cursor,
    pub void: bool,
    pub buffer: ReadBuffer,
    /// The entry of each chunk that the map has.
    pages: Map,
}

/// The numbers by which entries and records are judged.
fn shape_of(header: &Header) -> Shape2
    requires { IsValid header.now }
    ensures shape { result ≡ shape_of header.now }
    ensures blocks { EachChunkHasBlocks result }
    ensures few { result.chunks < 2 ^ 27 }
{
    let layout = layout_of(header);
    Shape2 {
        chunks: layout.chunks,
        storage: header.storage,
        blocks: layout.blocks,
        chunk: header.chunk,
        generation: header.generation,
    }
}

impl State {
    /// A void state for an image with this header.
    fn empty(alloc: Global, header: Header) -> Result<State, NoMemory>
        requires { IsValid header }
        ensures sized { IfOk result IsSized }
        ensures header { IfOk result (λ state. state.header ≡ header) }
        ensures void { IfOk result (λ state. state.void ≡ true) }
    {
        let layout = layout_of(&header);
        Ok(State {
            header,
            table: Table::new(alloc, layout.chunks, header.storage)?,
            fresh: Bits::new(alloc, layout.blocks, header.chunk)?,
            map: Map::new(alloc, layout.chunks)?,
            more: Marked::new(alloc, layout.slots_at - layout.spare_at)?,
            cursor: Cursor {
                next: 0,
                slots: header.slots,
            },
            void: true,
            buffer: ReadBuffer::new(alloc)?,
            pages: Map::new(alloc, layout.chunks)?,
        })
    }

    /// Goes on from the entries that were read, with the next record in slot `next`.
    fn settle(&mut self, next: u32) -> Result<(), OpenError>
        requires sized { IsSized self.old }
        requires taken { AreTaken (shape_of self.old.header) self.old.header.slots next self.old.map }
        ensures kept { KeepsSizes self.old self.new }
        ensures pages { self.new.pages ≡ self.old.pages }
        ensures map { self.new.map ≡ self.old.map }
        ensures settled { OnOk result (AgreesWithEntries self.new next) }
        ensures whole { OnOk result (IsWholeState self.new) }
        ensures twins { IfErr result (AreDouble self.new.map) }
    {
        let shape = shape_of(&self.header);
        if let Err(twins) = place_all(&self.map, &shape, &mut self.table, &mut self.fresh) {
            return Err(OpenError::DoubleChunk {
                a: twins.first,
                b: twins.second,
            });
        }
        mark(&self.map, &self.pages, shape.chunks, &mut self.more);
        self.cursor = Cursor {
            next,
            slots: self.header.slots,
        };
        Ok(())
    }

    /// Reads the map and applies the journal. What it answers is one past the highest slot that counts.
    fn read_entries<S: Store>(&mut self, store: &mut S) -> Result<u32, OpenError>
        requires ready { IsReady S.Store store.old }
        requires sized { IsSized self.old }
        requires large { store_need self.old.header ≤ S.sectors store.old }
        ensures errors { IfErr result (IsOfReading (IsStoreFault S.Store store.old store.new)) }
        ensures quiet { OnlyReads S.Store store.old store.new }
        ensures kept { KeepsSizes self.old self.new }
        ensures taken { IfOk result (λ next. AreTaken (shape_of self.old.header) self.old.header.slots next self.new.map) }
        ensures read { IfOk result (λ next. S.tells store.new → AreApplied self.old.header (S.disk store.new).held self.new.pages self.new.map next) }
        ensures wrong { IfErr result (λ e. S.tells store.new → self.old.header.version ≡ 2 → Found (S.disk store.new).held self.old.header
            → Unfilled (S.disk store.new).held e) }
    {
        let header = self.header;
        let layout = layout_of(&header);
        let shape = shape_of(&header);
        let buffer = &mut self.buffer;
        let room = &mut buffer.sectors;
        match read_map(store, room, layout.spare_at, &shape, &mut self.pages) {
            Ok(Ok(())) => {}
            Ok(Err(bad)) => {
                return Err(OpenError::BadEntry {
                    chunk: bad.chunk,
                    value: bad.value,
                });
            }
            Err(ticket) => return Err(OpenError::Store(ticket)),
        }
        copy(&mut self.map, &self.pages, shape.chunks);
        match replay(
            store,
            room,
            layout.slots_at,
            header.slots,
            &shape,
            &mut self.map,
        ) {
            Ok(Ok(next)) => Ok(next),
            Ok(Err(slot)) => Err(OpenError::BadRecord { slot }),
            Err(ticket) => Err(OpenError::Store(ticket)),
        }
    }

    /// Reads an image of version 1, which must be as it was made.
    fn read_old<S: Store>(&mut self, store: &mut S) -> Result<(), OpenError>
        requires ready { IsReady S.Store store.old }
        requires sized { IsSized self.old }
        requires version { self.old.header.version ≡ 1 }
        requires large { store_need self.old.header ≤ S.sectors store.old }
        ensures errors { IfErr result (IsOfReading (IsStoreFault S.Store store.old store.new)) }
        ensures quiet { OnlyReads S.Store store.old store.new }
        ensures kept { KeepsSizes self.old self.new }
        ensures whole { OnOk result (IsWholeState self.new) }
        ensures says { OnOk result (S.tells store.new → Found (S.disk store.new).held self.new.header → StateSays (S.disk store.new).held self.new) }
        ensures wrong { IfErr result (λ e. S.tells store.new → Found (S.disk store.new).held self.new.header → Unfilled (S.disk store.new).held e) }
    {
        let header = self.header;
        let buffer = &mut self.buffer;
        match is_fresh(store, &mut buffer.sectors, &header) {
            Ok(true) => {}
            Ok(false) => return Err(OpenError::NotBuilt),
            Err(ticket) => return Err(OpenError::Store(ticket)),
        }
        let chunks = layout_of(&header).chunks;
        clear(&mut self.pages, chunks);
        clear(&mut self.map, chunks);
        self.settle(0)
    }

    /// Reads an image of version 2.
    fn read_current<S: Store>(&mut self, store: &mut S) -> Result<(), OpenError>
        requires ready { IsReady S.Store store.old }
        requires sized { IsSized self.old }
        requires version { self.old.header.version ≡ 2 }
        requires large { store_need self.old.header ≤ S.sectors store.old }
        ensures errors { IfErr result (IsOfReading (IsStoreFault S.Store store.old store.new)) }
        ensures quiet { OnlyReads S.Store store.old store.new }
        ensures kept { KeepsSizes self.old self.new }
        ensures whole { OnOk result (IsWholeState self.new) }
        ensures says { OnOk result (S.tells store.new → Found (S.disk store.new).held self.new.header → StateSays (S.disk store.new).held self.new) }
        ensures wrong { IfErr result (λ e. S.tells store.new → Found (S.disk store.new).held self.new.header → Unfilled (S.disk store.new).held e) }
    {
        let next = self.read_entries(store)?;
        self.settle(next)
    }

    /// Reads what its version has.
    fn read<S: Store>(&mut self, store: &mut S) -> Result<(), OpenError>
        requires ready { IsReady S.Store store.old }
        requires sized { IsSized self.old }
        requires large { store_need self.old.header ≤ S.sectors store.old }
        ensures errors { IfErr result (IsOfReading (IsStoreFault S.Store store.old store.new)) }
        ensures quiet { OnlyReads S.Store store.old store.new }
        ensures kept { KeepsSizes self.old self.new }
        ensures whole { OnOk result (IsWholeState self.new) }
        ensures says { OnOk result (S.tells store.new → Found (S.disk store.new).held self.new.header → StateSays (S.disk store.new).held self.new) }
        ensures wrong { IfErr result (λ e. S.tells store.new → Found (S.disk store.new).held self.new.header → Unfilled (S.disk store.new).held e) }
    {
        if self.header.version == 1 {
            self.read_old(store)
        } else {
            self.read_current(store)
        }
    }

    /// Reads the image of this state's header. The state is void where that fails.
    fn fill<S: Store>(&mut self, store: &mut S) -> Result<(), OpenError>
        requires ready { IsReady S.Store store.old }
        requires sized { IsSized self.old }
        requires large { store_need self.old.header ≤ S.sectors store.old }
        ensures errors { IfErr result (IsOfReading (IsStoreFault S.Store store.old store.new)) }
        ensures quiet { OnlyReads S.Store store.old store.new }
        ensures kept { KeepsSizes self.old self.new }
        ensures void { self.new.void ≡ is_err result }
        ensures whole { OnOk result (IsWholeState self.new) }
        ensures says { OnOk result (S.tells store.new → Found (S.disk store.new).held self.new.header → StateSays (S.disk store.new).held self.new) }
        ensures wrong { IfErr result (λ e. S.tells store.new → Found (S.disk store.new).held self.new.header → Unfilled (S.disk store.new).held e) }
    {
        let read = self.read(store);
        self.void = read.is_err();
        read
    }

    /// Reads the image again, into this state: as `recover`, but for memory, which is never taken, and the version, which is that
    /// of the header before. `Changed` comes, next to `Header`, where a field that never changes is not what it was. The state
    /// is void after an error, until it is read again with success. The call of the ticket that `Store` names ended in the log
    /// of a store that tells by a Reply that isn't Ok.
    pub fn reload<S: Store>(&mut self, store: &mut S) -> Result<(), OpenError>
        requires idle { S.flight store.old [] }
        requires sized { IsSized self.old }
        // Neither OldVersion nor NoMemory comes.
        ensures errors { IfErr result (IsOfReload (IsStoreFault S.Store store.old store.new)) }
        ensures quiet { OnlyReads S.Store store.old store.new }
        ensures sized { IsSized self.new }
        ensures same { geometry_of self.new.header ≡ geometry_of self.old.header }
        ensures opened { OnOk result (IsOpenedState (S.sectors store.new) self.new) }
        ensures void { OnErr result (self.new.void ≡ true) }
        ensures says { OnOk result (S.tells store.new → StateSays (S.disk store.new).held self.new) }
        ensures refused { IfErr result (λ e. S.tells store.new → RefusedAgain self.old.header (S.disk store.new).held e) }
    {
        self.void = true;
        self.header = find_header(store, Some(self.header))?;
        self.fill(store)
    }

    /// Whether reading it failed the last time.
    pub fn is_void(&self) -> bool
        ensures { result ≡ self.now.void }
    {
        self.void
    }
}

/// Opens the image in a store with nothing in flight, if its version is `oldest` or later. Nothing is written.
///
/// Errors, the first that holds: `TooSmall` with need 1 and have 0 where the store has no sectors; `Header` where the first
/// sector is none; `TooSmall` where the layout needs more sectors than the store has; `OldVersion`. Then, in version 1,
/// `NotBuilt` where a chunk has an entry or a record counts. In version 2, `BadEntry` for the first entry of the map outside
/// the grammar, `BadRecord` for the first slot that counts and is, and `DoubleChunk` where two chunks have one storage when
/// all facts are applied. `Store` comes where a call fails, which ended in the log of a store that tells by a Reply that isn't
/// Ok, and `NoMemory` may come wherever no other error does.
pub fn recover<S: Store>(alloc: Global, store: &mut S, oldest: u32) -> Result<State, OpenError>
    requires idle { S.flight store.old [] }
    requires oldest { (oldest ≡ 1) ⊎ (oldest ≡ 2) }
    ensures fault { IfErr result (ForStore (IsStoreFault S.Store store.old store.new)) }
    ensures quiet { OnlyReads S.Store store.old store.new }
    ensures opened { IfOk result (IsOpenedState (S.sectors store.new)) }
    ensures version { IfOk result (λ state. oldest ≤ state.header.version) }
    ensures flushed { IfOk result (λ state. S.tells store.new → AddsFlush (S.disk store.old) (S.disk store.new)) }
    ensures says { IfOk result (λ state. S.tells store.new → StateSays (S.disk store.new).held state) }
    ensures refused { IfErr result (λ e. S.tells store.new → Refused oldest (S.disk store.new).held e) }
{
    let header = find_header(store, None)?;
    if header.version < oldest {
        return Err(OpenError::OldVersion);
    }
    let mut state = State::empty(alloc, header)?;
    state.fill(store)?;
    // For what its clause says alone: a store that tells records.
    let _telling = store.in_flight();
    Ok(state)
}
