//! The report of a run: the guest's calls with their answers, the closing, the reopening, and the sum.

ghost use Rattle.std.specs.Prelude.{◌≡◌, ℕ, ◌≤◌, [], Ok, None, length};
ghost use Rattle.std.specs.List.{All};
ghost use Rattle.vd_law.specs.Entries.{entry_of};
ghost use Rattle.vd_report.specs.Replies.{HasText, history_text, sum_text};
ghost use Rattle.vd_device.specs.Devices.{devices, HaveNoneInFlight, AreReadOnly};
ghost use Rattle.vd_replay.specs.States.{IsSized};
ghost use Rattle.vd_report.specs.Outcomes.{Reopened, Reported};
ghost use Rattle.vd_report.specs.Ending.{PrintsOutcome, is_ok_reply, are_ok, run_status};
ghost use Rattle.vd_report.specs.Writing.{WritesOn};
ghost use Rattle.vd_run.specs.Reopening.{Reopens};
ghost use Rattle.vd_run.specs.Running.{closing_line, first_past};

use crate::reopening::{Disk, reopen};
use vd_device::{Base, Store};
use vd_io::Failed;
use vd_io::sink::Sink;
use vd_law::entry::{Answer, Event, Sector};
use vd_log::history::History;
use vd_log::log::Log;
use vd_report::line::{About, Line};
use vd_report::printing::{ended, put_next};
use vd_report::replies::put_history;
use vd_report::room::MOST;
use vd_report::status::is_fault;
use vd_report::sum::put_sum;
use vd_trace::trace::Trace;

/// Whether the event is no reply, or an Ok.
fn is_ok(event: Event<'_>) -> bool
    ensures { result ≡ is_ok_reply (entry_of event.entry) }
{
    match event {
        Event::Reply { id: _, answer } => matches!(answer, Answer::Ok),
        _ => true,
    }
}

/// Whether each reply is Ok.
fn are_ok(log: &Log) -> bool
    ensures { result ≡ are_ok log.now.entries }
{
    let mut ok = true;
    for at in 0..log.len() {
        ok &= is_ok(log.event(at));
    }
    ok
}

/// What the report says of the closing.
fn closing_line(answer: Answer) -> Line
    ensures { result ≡ closing_line answer }
{
    match answer {
        Answer::Ok => Line::Ok,
        Answer::StoreFault { ticket, done: _ } => Line::StoreFault { ticket },
        Answer::BaseFault { ticket, done: _ } => Line::BaseFault { ticket },
        Answer::Worn { generation } => Line::Worn { generation },
        // a flush is answered neither
        Answer::Full { needed: _, free: _ } => Line::Ok,
        Answer::NoRoom {
            events: _,
            sectors: _,
        } => Line::Ok,
    }
}

/// Prints the calls of guest 1.
fn put_calls<O: Sink>(out: &mut O, history: &History) -> Result<(), Failed>
    requires { All HasText history.now.log.entries }
    ensures { WritesOn O.Sink (history_text 1 history.now.log.entries) (Ok tt) result out.old out.new }
{
    put_history(out, history, 1)
}

/// Prints the sum of guest 1's replies, unless the sink has failed at what was printed before.
fn put_last<O: Sink>(
    out: &mut O,
    written: Result<(), Failed>,
    history: &History,
) -> Result<(), Failed>
    ensures { WritesOn O.Sink (sum_text 1 history.now.log.entries) written result out.old out.new }
{
    written?;
    put_sum(out, history, 1)
}

/// The status of a run whose closing and reopening ended so.
fn run_status(closing_failed: bool, reopened: u8, ok: bool) -> u8
    ensures { result ≡ run_status closing_failed reopened ok }
{
    if closing_failed {
        5
    } else if reopened != 0 {
        reopened
    } else if ok {
        0
    } else {
        1
    }
}

/// Prints the report of a history of one guest, whose closing flush was answered so, and answers the status. The image is
/// opened again by its state, and each line of the trace that shows sectors is read from it. Each ticket that this names as a
/// store fault failed in this call: where the store tells, its log has got a Reply to that call that isn't Ok.
pub fn report<S: Store, B: Base, O: Sink>(
    out: &mut O,
    trace: &Trace,
    history: &History,
    closing: Answer,
    disk: &mut Disk<S, B>,
    room: &mut [Sector],
) -> u8
    requires text { All HasText history.now.log.entries }
    requires idle { HaveNoneInFlight S.Store B.Base (devices disk.old.store disk.old.base) }
    requires sized { IsSized disk.old.state }
    requires version { disk.old.state.header.version ≡ 2 }
    requires inside { first_past disk.old.state.header.size trace.now ≡ None }
    requires room { length room.old ≡ MOST }
    ensures reads { AreReadOnly S.Store B.Base (devices disk.old.store disk.old.base) (devices disk.new.store disk.new.base) }
    ensures reported { (reopened : Reopened)
        × Reopens S.Store B.Base disk.old.state.header trace.now.shows (devices disk.old.store disk.old.base) (devices disk.new.store disk.new.base) reopened
        × PrintsOutcome O.Sink (Reported 1 history.now.log.entries (closing_line closing) reopened) result out.old out.new }
{
    let line = closing_line(closing);
    let calls = put_calls(out, history);
    let closed = put_next(out, calls, About::Closing, line);
    let (reopened, opened) = reopen(out, closed, trace, disk, room);
    let written = put_last(out, opened, history);
    let status = run_status(is_fault(line), reopened, are_ok(history.log()));
    ended(status, written)
}
