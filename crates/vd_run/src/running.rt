//! The command `run`: one guest's requests, and the report of their history.

ghost use Rattle.std.specs.Prelude.{◌≡◌, ℕ, ◌≤◌, ◌<◌, [], None, Some, length, IfOk, IfErr};
ghost use Rattle.std.specs.List.{All};
ghost use Rattle.vd_device.specs.Disks.{Disk, IsHonest, IsRunning};
ghost use Rattle.vd_device.specs.Orders.{IsInOrder};
ghost use Rattle.vd_device.specs.Quiet.{IsReady, OnlyReads, AddsFlush};
ghost use Rattle.vd_replay.specs.States.{IsSized};
ghost use Rattle.vd_run.specs.Driving.{with_flush};
ghost use Rattle.vd_report.specs.Replies.{HasText};
ghost use Rattle.vd_device.specs.Devices.{devices, HaveNoneInFlight, AreReadOnly, Leaves};
ghost use Rattle.vd_report.specs.Streams.{KeepsSource};
ghost use Rattle.vd_report.specs.Outcomes.{Outcome, Reopened, Reported};
ghost use Rattle.vd_run.specs.Reopening.{Reopens};
ghost use Rattle.vd_report.specs.Ending.{PrintsOutcome};
ghost use Rattle.vd_run.specs.Running.{trace_line, closing_line, first_past, ReadsScript, IsReadLine, OpensFor, IsOpenLine, IsOpenedFor, RunsTrace, RunEnds};
ghost use Rattle.vd_run.specs.Orders.{IsOpenedFrom};
ghost use Rattle.vd_law.specs.Needs.{requests_room};
ghost use Rattle.vd_trace.specs.Traces.{works_asked};

use crate::ending::{End, unserved};
use crate::reopening::Disk;
use crate::reporting::report;
use crate::serving::{close, serve};
use std::alloc::Global;
use vd_core::{Closed, Core, Unopened};
use vd_device::{Base, Patient, Store, sectors_at_rest};
use vd_io::sink::Sink;
use vd_io::source::Source;
use vd_law::entry::{Answer, Room, Sector};
use vd_log::history::History;
use vd_replay::{State, recover};
use vd_report::line::Line;
use vd_report::printing::say;
use vd_report::room::MOST;
use vd_show::show_line;
use vd_trace::error::TraceError;
use vd_trace::trace::Trace;

fn line_of_trace(error: TraceError) -> Line
    ensures { result ≡ trace_line error }
{
    match error {
        TraceError::Bad { line } => Line::BadLine { number: line },
        TraceError::TooMuch { line } => Line::TooMuch { number: line },
        TraceError::Source => Line::SourceFault,
        TraceError::NoMemory => Line::NoMemory,
    }
}

/// The trace of one guest. The error is the line that says why there is none, of status 4, 6 or 7.
fn read_trace<I: Source>(alloc: Global, source: &mut I) -> Result<Trace, Line>
    ensures read { IfOk result (ReadsScript I.Source source.old source.new) }
    ensures refused { IfErr result (IsReadLine I.Source source.old source.new) }
    ensures keeps { KeepsSource I.Source source.old source.new }
{
    match Trace::read(alloc, 1, source) {
        Ok(trace) => Ok(trace),
        Err(error) => Err(line_of_trace(error)),
    }
}

/// What is known of a store with nothing in flight by what it tells.
fn look<S: Store>(store: &S)
    requires idle { S.flight store.now [] }
    ensures ready { IsReady S.Store store.now }
    ensures running { S.tells store.now → IsRunning (S.events store.now) (S.disk store.now) }
    ensures honest { S.tells store.now → IsHonest (S.disk store.now) }
    ensures order { S.tells store.now → IsInOrder (S.disk store.now) }
    ensures recorded { S.tells store.now → S.records store.now }
    ensures size { S.tells store.now → length (S.disk store.now).held ≡ length (S.disk store.now).start }
{
    let _sectors = store.sectors();
    let _events = store.events();
    let _flying = store.in_flight();
    let _ready = sectors_at_rest(store);
}

/// Opens an image of version 2, on whose disk all of the trace's ranges lie. The error is the line that says why not, of
/// status 3, 4, 5 or 7.
fn open_for<S: Store>(alloc: Global, store: &mut S, trace: &Trace) -> Result<State, Line>
    requires idle { S.flight store.old [] }
    ensures quiet { OnlyReads S.Store store.old store.new }
    ensures opened { IfOk result (λ state. OpensFor S.Store trace.now state.header store.old store.new) }
    ensures ready { IfOk result (λ state. IsOpenedFor S.Store trace.now state store.new) }
    ensures flushed { IfOk result (λ state. S.tells store.new → AddsFlush (S.disk store.old) (S.disk store.new)) }
    ensures refused { IfErr result (IsOpenLine S.Store trace.now store.old store.new) }
{
    let state = match recover(alloc, store, 2) {
        Ok(state) => state,
        Err(error) => return Err(show_line(error)),
    };
    match trace.past(state.header.size) {
        Some(number) => Err(Line::LinePastTheDisk { number }),
        None => Ok(state),
    }
}

/// The room that the history of a run takes at most: that of the trace's requests, and that of the closing flush.
fn room_for(trace: &Trace, block: u32) -> Room
    requires { 0 < block }
    ensures { result ≡ with_flush (requests_room block (works_asked trace.now.asks)) }
{
    let need = trace.need(block);
    Room {
        events: need.events + 2,
        sectors: need.sectors,
    }
}

/// What the serving of a trace leaves.
struct Served<S, B> {
    /// The state is as the image was opened.
    disk: Disk<S, B>,
    history: History,
    /// The answer of the closing flush.
    closing: Answer,
}

/// Serves the trace over the devices of an image that was opened as this state, makes durable what was written, and hands the
/// devices back with the history. Want of memory hands them back as they were.
fn serve_trace<S: Store, B: Base>(
    alloc: Global,
    trace: &Trace,
    state: State,
    sectors: &mut [Sector],
    store: S,
    base: B,
) -> Result<Served<S, B>, Unopened<S, B>>
    requires idle { HaveNoneInFlight S.Store B.Base (devices store base) }
    requires ready { IsOpenedFor S.Store trace.now state store }
    requires guests { trace.now.guests ≡ 1 }
    requires sectors { length sectors.old ≡ MOST }
    // on a store that was handed in as `first`
    ensures run { IfOk result (λ served. (first : S) → IsOpenedFrom S.Store first store
        → RunsTrace S.Store B.Base trace.now state.header (devices first base) (devices served.disk.store served.disk.base)
        served.history (closing_line served.closing)) }
    ensures state { IfOk result (λ served. IsSized served.disk.state × (served.disk.state.header ≡ state.header)) }
    ensures leaves { IfOk result (λ served. Leaves S.Store B.Base (devices store base) (devices served.disk.store served.disk.base)) }
    ensures back { IfErr result (λ refused. (refused.store ≡ store) × (refused.base ≡ base)) }
    ensures sectors { length sectors.new ≡ MOST }
{
    look(&store);
    let room = room_for(trace, state.header.block);
    match Core::new(
        alloc,
        Patient::new(store),
        Patient::new(base),
        state,
        2,
        room,
    ) {
        Err(Unopened { store, base }) => Err(Unopened {
            store: store.into_inner(),
            base: base.into_inner(),
        }),
        Ok(core) => {
            let mut core = core;
            serve(&mut core, trace, sectors);
            // Behind the last request, so that whatever was answered is among what the flush makes durable.
            let closing = close(&mut core);
            let Closed {
                store,
                base,
                history,
                state,
            } = core.finish();
            let store = store.into_inner();
            look(&store);
            Ok(Served {
                disk: Disk {
                    store,
                    base: base.into_inner(),
                    state,
                },
                history,
                closing,
            })
        }
    }
}

/// Prints the report of a trace that was served, and hands out what the serving left.
fn leave<S: Store, B: Base, O: Sink>(
    out: &mut O,
    trace: &Trace,
    served: Served<S, B>,
    room: &mut [Sector],
) -> End<S, B>
    requires idle { HaveNoneInFlight S.Store B.Base (devices served.disk.store served.disk.base) }
    requires text { All HasText served.history.log.entries }
    requires sized { IsSized served.disk.state }
    requires version { served.disk.state.header.version ≡ 2 }
    requires inside { first_past served.disk.state.header.size trace.now ≡ None }
    requires room { length room.old ≡ MOST }
    ensures reads { AreReadOnly S.Store B.Base (devices served.disk.store served.disk.base) (devices result.store result.base) }
    ensures history { result.history ≡ Some served.history }
    ensures reported { (reopened : Reopened)
        × Reopens S.Store B.Base served.disk.state.header trace.now.shows (devices served.disk.store served.disk.base) (devices result.store result.base) reopened
        × PrintsOutcome O.Sink (Reported 1 served.history.log.entries (closing_line served.closing) reopened) result.status out.old out.new }
{
    let Served {
        mut disk,
        history,
        closing,
    } = served;
    let status = report(out, trace, &history, closing, &mut disk, room);
    let Disk { store, base, .. } = disk;
    End {
        status,
        store,
        base,
        history: Some(history),
    }
}

/// Runs the trace of one guest on an image of version 2 and prints the report: the guest's calls with their answers, how the
/// closing flush was answered, how the image opens again, what the trace's lines show of it, how many blocks are local, and the
/// sum. It answers status 5 where a device failed at the closing, the reopening or a line that shows, 3 where the reopening is
/// refused, 0 where each reply is Ok, else 1; or, first things first, 6 or 4 for the trace, 7 for want of memory, 5 or 3 for the
/// opening, 4 for a range past the disk, and 6 for a sink that fails where the status would be 0 or 1. After the first request
/// nothing takes memory. Each ticket that the reopening or a line that shows names as a store fault has, where the store tells,
/// a Reply in its log that isn't Ok, behind all that the log had when the closing was answered.
pub fn run<S: Store, B: Base, I: Source, O: Sink>(
    alloc: Global,
    source: &mut I,
    out: &mut O,
    store: S,
    base: B,
) -> End<S, B>
    requires idle { S.flight store [] }
    requires base_idle { B.flight base [] }
    ensures ran { (outcome : Outcome) × RunEnds S.Store B.Base I.Source (devices store base) result source.old source.new outcome
        × PrintsOutcome O.Sink outcome result.status out.old out.new }
    ensures leaves { Leaves S.Store B.Base (devices store base) (devices result.store result.base) }
    ensures unserved { result.history ≡ None → OnlyReads S.Store store result.store }
    ensures source { KeepsSource I.Source source.old source.new }
{
    let mut store = store;
    look(&store);
    let trace = match read_trace(alloc, source) {
        Ok(trace) => trace,
        Err(line) => return unserved(say(out, line), store, base),
    };
    let Ok(mut sectors) = vec![in alloc; Sector::filled(0); MOST as usize] else {
        return unserved(say(out, Line::NoMemory), store, base);
    };
    let state = match open_for(alloc, &mut store, &trace) {
        Ok(state) => state,
        Err(line) => return unserved(say(out, line), store, base),
    };
    match serve_trace(alloc, &trace, state, sectors.as_mut_slice(), store, base) {
        Ok(served) => leave(out, &trace, served, sectors.as_mut_slice()),
        Err(Unopened { store, base }) => unserved(say(out, Line::NoMemory), store, base),
    }
}
