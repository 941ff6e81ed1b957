//! What the report of a run says of the image that the run has left: it is read again.

ghost use Rattle.std.specs.Prelude.{◌≡◌, ℕ, ◌+◌, ◌≤◌, [], false, List, length, take, None};
ghost use Rattle.std.specs.Int.{div_ceil};
ghost use Rattle.std.specs.List.{list_any, flat_map};
ghost use Rattle.vd_format.specs.Headers.{IsValid};
ghost use Rattle.vd_format.specs.Layouts.{blocks_of};
ghost use Rattle.vd_bits.specs.Marks.{count_true};
ghost use Rattle.vd_replay.specs.States.{IsReadable, IsSized, StateSays};
ghost use Rattle.vd_trace.specs.Traces.{Showing};
ghost use Rattle.vd_report.specs.Outcomes.{ShownLine, Reopened};
ghost use Rattle.vd_report.specs.Ending.{has_failed, shown_text, reopened_status, reopened_text};
ghost use Rattle.vd_report.specs.Writing.{WritesOn};
ghost use Rattle.vd_run.specs.Reopening.{IsShownBy, AreShownBy, Reopens};
ghost use Rattle.vd_run.specs.Running.{first_past};
ghost use Rattle.vd_device.specs.Devices.{devices, HaveNoneInFlight, AreReadOnly};

use vd_device::{Base, Store, sectors_at_rest};
use vd_format::Header;
use vd_io::Failed;
use vd_io::sink::Sink;
use vd_law::entry::Sector;
use vd_replay::{State, read_disk};
use vd_report::line::{About, Line};
use vd_report::printing::{put_next, put_sectors};
use vd_report::room::MOST;
use vd_report::status::is_fault;
use vd_show::{fault_line, show_line};
use vd_trace::trace::Trace;

/// A disk that was served: its devices, and its image's state, by which it is read again.
#[derive(Drop)]
pub struct Disk<S, B> {
    pub store: S,
    pub base: B,
    pub state: State,
}

/// How many blocks begin in the tracked part of the disk.
fn tracked_blocks(header: &Header) -> u32
    requires { IsValid header.now }
    ensures value { result ≡ div_ceil header.now.tracked header.now.block }
    ensures inside { result ≤ blocks_of header.now }
{
    header.tracked.div_ceil(u64::from(header.block)) as u32
}

/// How many of the first `of` blocks are local.
fn count_local(state: &State, of: u32) -> u64
    requires { of ≤ length state.now.fresh.bits }
    ensures { result ≡ count_true (take of state.now.fresh.bits) }
{
    let mut local = 0;
    for block in 0..of {
        if state.fresh.get(block) {
            local += 1;
        }
    }
    local
}

/// Reads the sectors from `first` on, as many as `room` has, and prints them, or the device that failed. It answers whether one
/// did.
fn put_shown<S: Store, B: Base, O: Sink>(
    out: &mut O,
    written: Result<(), Failed>,
    disk: &mut Disk<S, B>,
    first: u64,
    room: &mut [Sector],
) -> (bool, Result<(), Failed>)
    requires idle { HaveNoneInFlight S.Store B.Base (devices disk.old.store disk.old.base) }
    requires readable { IsReadable (S.sectors disk.old.store) disk.old.state }
    requires says { S.tells disk.old.store → StateSays (S.disk disk.old.store).held disk.old.state }
    requires inside { first + length room.old ≤ disk.old.state.header.size }
    ensures state { disk.new.state ≡ disk.old.state }
    ensures reads { AreReadOnly S.Store B.Base (devices disk.old.store disk.old.base) (devices disk.new.store disk.new.base) }
    ensures shows { (shows : ShownLine)
        × ((line : Showing) → line.first ≡ first → line.count ≡ length room.old
        → IsShownBy S.Store B.Base disk.old.state.header (devices disk.old.store disk.old.base) (devices disk.new.store disk.new.base) line shows)
        × (result.0 ≡ has_failed shows)
        × WritesOn O.Sink (shown_text shows) written result.1 out.old out.new }
{
    match read_disk(&mut disk.store, &mut disk.base, &disk.state, first, room) {
        Ok(()) => (false, put_sectors(out, written, first, room)),
        Err(fault) => (
            true,
            put_next(out, written, About::Shown { first }, fault_line(fault)),
        ),
    }
}

/// Prints what each line of the trace shows, in order, and answers whether a device failed to give some.
fn put_shows<S: Store, B: Base, O: Sink>(
    out: &mut O,
    written: Result<(), Failed>,
    trace: &Trace,
    disk: &mut Disk<S, B>,
    room: &mut [Sector],
) -> (bool, Result<(), Failed>)
    requires idle { HaveNoneInFlight S.Store B.Base (devices disk.old.store disk.old.base) }
    requires readable { IsReadable (S.sectors disk.old.store) disk.old.state }
    requires says { S.tells disk.old.store → StateSays (S.disk disk.old.store).held disk.old.state }
    requires inside { first_past disk.old.state.header.size trace.now ≡ None }
    requires room { length room.old ≡ MOST }
    ensures state { disk.new.state ≡ disk.old.state }
    ensures reads { AreReadOnly S.Store B.Base (devices disk.old.store disk.old.base) (devices disk.new.store disk.new.base) }
    ensures shows { (shown : List ShownLine)
        × AreShownBy S.Store B.Base disk.old.state.header (devices disk.old.store disk.old.base) (devices disk.new.store disk.new.base) trace.now.shows shown
        × (result.0 ≡ list_any has_failed shown)
        × WritesOn O.Sink (flat_map shown_text shown) written result.1 out.old out.new }
{
    // For what its clause says alone: the store is ready.
    let _sectors = sectors_at_rest(&disk.store);
    let mut failed = false;
    let mut so_far = written;
    for at in 0..trace.shows() {
        let (first, count) = trace.show(at);
        let (fails, further) = put_shown(out, so_far, disk, first, &mut room[..count as usize]);
        failed |= fails;
        so_far = further;
    }
    (failed, so_far)
}

/// Opens the image again and prints how it opens, what each line of the trace shows, and how many blocks are local. It answers
/// the status of this: 5, 3 or 0. Each ticket that it names as a store fault failed in this call: where the store tells, its
/// log has got a Reply to that call that isn't Ok.
pub fn reopen<S: Store, B: Base, O: Sink>(
    out: &mut O,
    written: Result<(), Failed>,
    trace: &Trace,
    disk: &mut Disk<S, B>,
    room: &mut [Sector],
) -> (u8, Result<(), Failed>)
    requires idle { HaveNoneInFlight S.Store B.Base (devices disk.old.store disk.old.base) }
    requires sized { IsSized disk.old.state }
    requires version { disk.old.state.header.version ≡ 2 }
    requires inside { first_past disk.old.state.header.size trace.now ≡ None }
    requires room { length room.old ≡ MOST }
    ensures reads { AreReadOnly S.Store B.Base (devices disk.old.store disk.old.base) (devices disk.new.store disk.new.base) }
    ensures opens { (reopened : Reopened)
        × Reopens S.Store B.Base disk.old.state.header trace.now.shows (devices disk.old.store disk.old.base) (devices disk.new.store disk.new.base) reopened
        × (result.0 ≡ reopened_status reopened)
        × WritesOn O.Sink (reopened_text reopened) written result.1 out.old out.new }
{
    if let Err(error) = disk.state.reload(&mut disk.store) {
        let line = show_line(error);
        let status = if is_fault(line) { 5 } else { 3 };
        return (status, put_next(out, written, About::Reopening, line));
    }
    let opened = put_next(out, written, About::Reopening, Line::Ok);
    let (failed, shown) = put_shows(out, opened, trace, disk, room);
    let of = tracked_blocks(&disk.state.header);
    let local = count_local(&disk.state, of);
    let line = Line::Local {
        local,
        of: u64::from(of),
    };
    let status = if failed { 5 } else { 0 };
    (status, put_next(out, shown, About::Command, line))
}
