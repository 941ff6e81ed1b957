//! A core is made over two devices, and taken apart.

ghost use Rattle.std.specs.Prelude.{ℕ, ◌≡◌, ◌+◌, ◌*◌, ◌^◌, ◌<◌, ◌≤◌, ◌++◌, List, [], ◌∷◌, None, replicate, IfOk, IfErr, length, slice_get, Some, vec_capacity};
ghost use Rattle.vd_format.specs.Headers.{IsValid};
ghost use Rattle.vd_format.specs.Layouts.{store_need};
ghost use Rattle.vd_replay.specs.States.{IsSized, IsWholeState, StateSays};
ghost use Rattle.vd_passes.specs.declared.pass.Pass.{Pass as AnyPass};
ghost use Rattle.vd_passes.specs.declared.pass.Phase.TheVariants.{Idle};
ghost use Rattle.vd_passes.specs.Passes.{IsNew};
ghost use Rattle.vd_device.specs.Disks.{Disk};
ghost use Rattle.vd_device.specs.Quiet.{AddsFlush};
ghost use Rattle.vd_core.specs.Opening.{disk_shape, new_keeping, AreNew, IsNewCore, empty_history};
ghost use Rattle.vd_core.specs.History.{HasOpening, IsHistoryOf, HasEnded};

use crate::state::Core;
use std::alloc::Global;
use std::snapshot::Snapshot;
use vd_bits::marked::Marked;
use vd_device::{Base, Store};
use vd_format::{Header, layout_of};
use vd_keeper::Keeper;
use vd_law::entry::{NoMemory, Room};
use vd_log::history::History;
use vd_passes::buffer::Buffer;
use vd_passes::pass::Pass;
use vd_passes::shape::Shape;
use vd_regions::regions::Regions;
use vd_replay::State;

/// The devices of a core for which there was no memory.
pub struct Unopened<S, B> {
    pub store: S,
    pub base: B,
}

/// What a core leaves.
pub struct Closed<S, B> {
    pub store: S,
    pub base: B,
    pub history: History,
    /// As the image was opened, to read it again.
    pub state: State,
}

/// The shape of the disk of an image with this header, over a base of so many sectors.
fn shape_of(header: &Header, base_sectors: u64) -> Shape
    requires { IsValid header.now }
    ensures { result ≡ disk_shape header.now base_sectors }
{
    let layout = layout_of(header);
    Shape {
        block: header.block.into(),
        chunk: header.chunk.into(),
        blocks: layout.blocks.into(),
        tracked: header.tracked,
        limit: base_sectors.min(header.tracked),
        storage_at: layout.storage_at,
    }
}

/// Ends passes with nothing in flight.
fn end_passes(passes: Vec<Pass>) {
    let mut passes = passes;
    while let Some(p) = passes.pop() {
        let Pass {
            phase: _,
            call: _,
            write: _,
            flush: _,
            first: _,
            count: _,
            done: _,
            block: _,
            piece: _,
            at: _,
            fault: _,
            ticket,
            fetch,
            events: _,
            sectors: _,
            buffer: _,
        } = p;
        if let Some(ticket) = ticket {
            ticket.spend();
        }
        if let Some(fetch) = fetch {
            fetch.spend();
        }
    }
    passes.destroy_empty();
}

/// The parts of a core that take memory, but for its passes.
#[derive(Drop)]
struct Parts {
    keeper: Keeper,
    regions: Regions,
    history: History,
}

/// The same marks, which a state keeps too.
fn copied(alloc: Global, marks: &Marked, pages: u64) -> Result<Marked, NoMemory>
    requires { pages ≡ length marks.now }
    ensures { IfOk result (λ copy. copy ≡ marks.now) }
{
    let mut copy = Marked::new(alloc, pages)?;
    let mut from = 0;
    while let Some(page) = marks.first_from(from) {
        copy.mark(page);
        from = page + 1;
    }
    Ok(copy)
}

/// The parts for an image that was opened as this state, when its store has had so many events.
fn new_parts(
    alloc: Global,
    state: &State,
    passes: u32,
    room: Room,
    events: u64,
) -> Result<Parts, NoMemory>
    requires whole { IsWholeState state.now }
    requires version { state.now.header.version ≡ 2 }
    requires some { 0 < passes }
    requires most { passes ≤ 64 }
    ensures keeper { IfOk result (λ parts. parts.keeper ≡ new_keeping state.now) }
    ensures regions { IfOk result (λ parts. parts.regions ≡ replicate passes None) }
    ensures history { IfOk result (λ parts. parts.history ≡ empty_history room events) }
{
    let layout = layout_of(&state.header);
    let mut history = History::new(alloc, room)?;
    history.open_at(events);
    let marked = copied(alloc, &state.more, layout.slots_at - layout.spare_at)?;
    let keeper = Keeper::new(
        alloc,
        &state.header,
        &state.fresh,
        marked,
        state.cursor.next,
    )?;
    Ok(Parts {
        keeper,
        regions: Regions::new(alloc, passes)?,
        history,
    })
}

fn push_pass(passes: &mut Vec<Pass>, buffer: Buffer)
    requires { length passes.old.items < vec_capacity passes.old }
    ensures pass { (p : AnyPass) × IsNew buffer p × (passes.new.items ≡ passes.old.items ++ p ∷ []) }
    ensures room { vec_capacity passes.old ≤ vec_capacity passes.new }
{
    match passes.push(Pass::new(buffer)) {
        Ok(()) => {}
        Err(_) => unreachable!(),
    }
}

/// So many passes that have asked nothing yet.
fn new_passes(alloc: Global, count: u32, block: usize) -> Result<Vec<Pass>, NoMemory>
    ensures { IfOk result (λ passes. AreNew count block passes.items) }
{
    let mut passes = Vec::with_capacity(alloc, count as usize)?;
    for _ in 0..count {
        match Buffer::zeros(alloc, block) {
            Ok(buffer) => push_pass(&mut passes, buffer),
            Err(_) => {
                end_passes(passes);
                return Err(NoMemory);
            }
        }
    }
    Ok(passes)
}

/// Room for so many events and sectors; each count fits in 64 bits.
fn room_of(events: u64, sectors: u64) -> Room
    ensures room { result ≡ record { events = events; sectors = sectors } }
    ensures bounded { events < 2 ^ 64 }
{
    Room { events, sectors }
}

impl<S: Store, B: Base> Core<S, B> {
    /// A core over the store of an image of version 2 that was opened as this state, since when the store had no call, and over its
    /// base, with 1 to 64 passes and room for a history. Nothing is in flight on either device. Want of memory hands all back.
    pub fn new(
        alloc: Global,
        store: S,
        base: B,
        state: State,
        passes: u32,
        room: Room,
    ) -> Result<Core<S, B>, Unopened<S, B>>
        requires whole { IsWholeState state }
        requires version { state.header.version ≡ 2 }
        requires fits { store_need state.header ≤ S.sectors store }
        requires says { S.tells store → StateSays (S.disk store).held state }
        // what was written before is durable
        requires flushed { S.tells store → (old : Disk) × AddsFlush old (S.disk store) }
        requires idle { S.flight store [] }
        requires base_idle { B.flight base [] }
        requires some { 0 < passes }
        requires most { passes ≤ 64 }
        ensures back { IfErr result (λ refused. (refused.store ≡ store) × (refused.base ≡ base)) }
        ensures opened { IfOk result (λ core. IsNewCore S.Store B.Base state passes room store base core) }
        ensures opening { IfOk result (λ core. HasOpening S.Store B.Base core) }
    {
        // Asked for what their clauses say alone: the invariant bounds what the devices tell.
        let _known = (
            store.sectors(),
            store.depth(),
            store.in_flight(),
            base.depth(),
        );
        let (begun_store, begun_base) = (Snapshot::of(&store), Snapshot::of(&base));
        let shape = shape_of(&state.header, base.sectors());
        let spare = room_of(room.events, room.sectors);
        match new_parts(alloc, &state, passes, room, store.events()) {
            Err(NoMemory) => Err(Unopened { store, base }),
            Ok(parts) => match new_passes(alloc, passes, shape.block as usize) {
                Err(NoMemory) => Err(Unopened { store, base }),
                Ok(passes) => {
                    let Parts {
                        keeper,
                        regions,
                        history,
                    } = parts;
                    Ok(Core {
                        store,
                        base,
                        shape,
                        state,
                        keeper,
                        flusher: None,
                        regions,
                        passes,
                        history,
                        spare,
                        room,
                        steps: 0,
                        begun_store,
                        begun_base,
                    })
                }
            },
        }
    }

    /// Takes the core apart, once all passes are idle. Nothing is in flight on either device. The state is the one from which the
    /// core was made, but for its table and its local blocks: it can be read again.
    pub fn finish(self) -> Closed<S, B>
        requires idle { (i : ℕ) (p : AnyPass) → slice_get self.passes i ≡ Some p → p.phase ≡ Idle }
        ensures store { result.store ≡ self.store }
        ensures base { result.base ≡ self.base }
        ensures history { result.history ≡ self.history }
        ensures state { IsSized result.state × (result.state.header ≡ self.fixed.header) }
        ensures none_in_flight { S.flight result.store [] }
        ensures none_in_base_flight { B.flight result.base [] }
        ensures known { IsHistoryOf S.Store B.Base self }
        ensures ended { HasEnded S.Store B.Base self }
    {
        let Core {
            store,
            base,
            shape: _,
            state,
            keeper: _,
            flusher: _,
            regions: _,
            passes,
            history,
            spare: _,
            room: _,
            steps: _,
            begun_store: _,
            begun_base: _,
        } = self;
        end_passes(passes);
        // For what their clauses say alone: a store that tells logs, and has as many events as its log, and the numbers never fall.
        let _flight = store.in_flight();
        let _events = store.events();
        let _entries = history.log();
        Closed {
            store,
            base,
            history,
            state,
        }
    }
}
