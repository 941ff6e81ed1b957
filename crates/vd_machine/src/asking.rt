//! A request is asked, and a reply is given, in the room that the history has left.

ghost use Rattle.std.specs.Prelude.{Bool, List, ◌≡◌, ◌+◌, ◌-◌, ◌*◌, ◌/◌, ◌^◌, ◌<◌, ◌≤◌, ◌⊎◌, [], ◌∷◌, None, Some, IfSome, IfNone, length};
ghost use Rattle.vd_law.specs.Entries.{asked_of};
ghost use Rattle.vd_law.specs.declared.entry.Answer.TheVariants.{Full};
ghost use Rattle.vd_law.specs.Logs.{asked_content};
ghost use Rattle.vd_law.specs.Rules.{IsInside};
ghost use Rattle.vd_table.specs.Tables.{used_chunks};
ghost use Rattle.vd_table.specs.Runs.{lacking};
ghost use Rattle.vd_passes.specs.declared.shape.Shape.{Shape as AnyShape};
ghost use Rattle.vd_passes.specs.Requests.{requests};
ghost use Rattle.vd_passes.specs.Steps.{IsAt, Asks, AsksFull, Replies};
ghost use Rattle.vd_device.specs.Disks.{IsRunning};
ghost use Rattle.vd_machine.specs.Adding.{CanAdd, AddsEntries};
ghost use Rattle.vd_machine.specs.Asking.{CanAsk, AskEnds, Claims, CanReply, ask_state, run_from, run_count, room_after_reply, room_without};

use crate::adding::{add, call_id};
use vd_device::Store;
use vd_law::entry::{Answer, Event, Request, Room};
use vd_law::needs::request_room;
use vd_log::history::History;
use vd_passes::pass::Pass;
use vd_passes::shape::Shape;
use vd_table::table::Table;

/// The chunks of a write's range, the first and their number; none of a read's.
fn run(shape: &Shape, request: Request<'_>) -> (u32, u32)
    requires some { 0 < shape.now.block }
    requires chunk { 0 < shape.now.chunk }
    requires range { IsInside (2 ^ 26) (asked_of request) }
    ensures from { result.0 ≡ run_from shape.now (asked_of request.entry) }
    ensures count { result.1 ≡ run_count shape.now (asked_of request.entry) }
{
    match request {
        Request::Write { first, content } => {
            let last = (first + content.len() as u64).saturating_sub(1) / shape.block / shape.chunk;
            let from = first / shape.block / shape.chunk;
            (from as u32, (last + 1 - from) as u32)
        }
        _ => (0, 0),
    }
}

/// Gives storage to those of the chunks that have none, or answers how many are lacking and how many storage chunks are free,
/// where these are fewer.
fn claim(table: &mut Table, from: u32, count: u32) -> Option<(u64, u64)>
    requires inside { from + count ≤ length table.old.chunks }
    ensures full { IfSome result (λ full. (full.0 ≡ lacking table.old from count) × (full.1 + used_chunks table.old ≡ table.old.storage)
        × (full.1 < full.0) × (table.new ≡ table.old)) }
    ensures claims { IfNone result (Claims table.old table.new from count) }
{
    let lacking = table.lacking(from, count);
    let free = table.free();
    if lacking > free {
        return Some((lacking.into(), free.into()));
    }
    table.take_run(from, count);
    None
}

/// How many sectors the Ask of a request tells.
fn content_of(request: Request<'_>) -> u64
    ensures { result ≡ length (asked_content (asked_of request.entry)) }
{
    match request {
        Request::Write { first: _, content } => content.len() as u64,
        _ => 0,
    }
}

/// The room without so much of it.
fn without(left: Room, events: u64, sectors: u64) -> Room
    requires events { events ≤ left.events }
    requires sectors { sectors ≤ left.sectors }
    ensures { result ≡ room_without left events sectors }
{
    Room {
        events: left.events - events,
        sectors: left.sectors - sectors,
    }
}

/// Asks a request, to which so much room is left after its Ask.
fn ask_request<S: Store>(
    store: &S,
    passes: &mut Vec<Pass>,
    history: &mut History,
    pass: usize,
    request: Request<'_>,
    left: Room,
)
    requires there { IsAt passes.old.items pass (λ p. p.call < 2 ^ 64 - 1) }
    requires few { length passes.old.items ≤ 64 }
    requires room { CanAdd (length (asked_content (asked_of request))) history.old (S.events store.now) }
    ensures asks { (shape : AnyShape) (fresh : List Bool) → Asks (asked_of request.entry) left.events left.sectors pass
        (requests shape fresh passes.old.items history.old.log.entries) (requests shape fresh passes.new.items history.new.log.entries) }
    ensures extends { AddsEntries (S.events store.now ∷ []) (length (asked_content (asked_of request.entry))) history.old history.new }
    ensures running { S.tells store.now → IsRunning (S.events store.now) (S.disk store.now) }
{
    let p = &mut passes[pass];
    p.ask(request, left.events, left.sectors);
    let id = call_id(pass, p.call);
    add(store, history, Event::Ask { id, request });
}

/// Asks a write and replies that it is Full.
fn ask_full<S: Store>(
    store: &S,
    passes: &mut Vec<Pass>,
    history: &mut History,
    pass: usize,
    request: Request<'_>,
    full: (u64, u64),
) -> Answer
    requires there { IsAt passes.old.items pass (λ p. p.call < 2 ^ 64 - 1) }
    requires few { length passes.old.items ≤ 64 }
    requires room { CanAdd (length (asked_content (asked_of request))) history.old (S.events store.now) }
    requires reply { 1 < history.old.log.left.events }
    ensures answer { result ≡ Full full.0 full.1 }
    ensures asks { (shape : AnyShape) (fresh : List Bool) → AsksFull (asked_of request.entry) full.0 full.1 pass
        (requests shape fresh passes.old.items history.old.log.entries) (requests shape fresh passes.new.items history.new.log.entries) }
    ensures extends { AddsEntries (S.events store.now ∷ S.events store.now ∷ []) (length (asked_content (asked_of request.entry))) history.old history.new }
    ensures running { S.tells store.now → IsRunning (S.events store.now) (S.disk store.now) }
{
    let p = &mut passes[pass];
    p.call += 1;
    let id = call_id(pass, p.call);
    add(store, history, Event::Ask { id, request });
    let (needed, free) = full;
    let answer = Answer::Full { needed, free };
    add(store, history, Event::Reply { id, answer });
    answer
}

/// Gives a pass that is ready its reply.
fn reply_request<S: Store>(
    store: &S,
    passes: &mut Vec<Pass>,
    history: &mut History,
    pass: usize,
) -> Answer
    requires there { pass < length passes.old.items }
    requires few { length passes.old.items ≤ 64 }
    requires room { CanAdd 0 history.old (S.events store.now) }
    ensures replies { (shape : AnyShape) (fresh : List Bool) → Replies result pass
        (requests shape fresh passes.old.items history.old.log.entries) (requests shape fresh passes.new.items history.new.log.entries) }
    ensures extends { AddsEntries (S.events store.now ∷ []) 0 history.old history.new }
    ensures running { S.tells store.now → IsRunning (S.events store.now) (S.disk store.now) }
{
    let p = &mut passes[pass];
    let id = call_id(pass, p.call);
    let answer = p.reply();
    add(store, history, Event::Reply { id, answer });
    answer
}

/// Asks a request in the spare room of the history.
pub fn ask_in_room<S: Store>(
    store: &S,
    shape: &Shape,
    table: &mut Table,
    passes: &mut Vec<Pass>,
    history: &mut History,
    spare: &mut Room,
    pass: usize,
    request: Request<'_>,
) -> Option<Answer>
    requires can { CanAsk shape.now table.old passes.old.items history.old spare.old (S.events store.now) (asked_of request) pass }
    ensures ends { AskEnds result (asked_of request.entry) (S.events store.now) pass
        (ask_state shape.now table.old passes.old.items history.old spare.old) (ask_state shape.now table.new passes.new.items history.new spare.new) }
    ensures running { S.tells store.now → (history.new ≡ history.old) ⊎ IsRunning (S.events store.now) (S.disk store.now) }
{
    let need = request_room(shape.block, request);
    let left = *spare;
    if need.events > left.events || need.sectors > left.sectors {
        return Some(Answer::NoRoom {
            events: left.events,
            sectors: left.sectors,
        });
    }
    let told = content_of(request);
    let (from, count) = run(shape, request);
    match claim(table, from, count) {
        Some(full) => {
            *spare = without(left, 2, told);
            Some(ask_full(store, passes, history, pass, request, full))
        }
        None => {
            *spare = without(left, need.events, need.sectors);
            let reserved = without(need, 1, told);
            ask_request(store, passes, history, pass, request, reserved);
            None
        }
    }
}

/// Gives a pass that is ready its reply, and what it leaves of its room is spare again.
pub fn reply_in_room<S: Store>(
    store: &S,
    passes: &mut Vec<Pass>,
    history: &mut History,
    spare: &mut Room,
    pass: usize,
) -> Answer
    requires can { IsAt passes.old.items pass (CanReply passes.old.items history.old spare.old (S.events store.now)) }
    ensures replies { (shape : AnyShape) (fresh : List Bool) → Replies result pass
        (requests shape fresh passes.old.items history.old.log.entries) (requests shape fresh passes.new.items history.new.log.entries) }
    ensures extends { AddsEntries (S.events store.now ∷ []) 0 history.old history.new }
    ensures left { IsAt passes.old.items pass (λ p. spare.new ≡ room_after_reply p spare.old) }
    ensures running { S.tells store.now → IsRunning (S.events store.now) (S.disk store.now) }
{
    // The numbers of the room that is left have 64 bits, and the two sums are part of it.
    let _ = history.log().left();
    let p = &passes[pass];
    spare.events += p.events - 1;
    spare.sectors += p.sectors;
    reply_request(store, passes, history, pass)
}
