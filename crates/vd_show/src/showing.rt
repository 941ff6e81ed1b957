//! The command `show`.

ghost use Rattle.std.specs.Prelude.{◌≡◌, ℕ, ◌+◌, ◌^◌, ◌<◌, ◌≤◌, [], length, nat_lt};
ghost use Rattle.vd_report.specs.Outcomes.{Outcome};
ghost use Rattle.vd_show.specs.Showing.{show_outcome, header_line, show_line, fault_line, Finds};
ghost use Rattle.vd_report.specs.Ending.{PrintsOutcome};
ghost use Rattle.vd_device.specs.Devices.{devices, AreReadOnly};

use std::alloc::Global;
use vd_device::{Base, Store, sectors_at_rest};
use vd_format::HeaderError;
use vd_io::sink::Sink;
use vd_law::entry::Sector;
use vd_replay::{DiskFault, OpenError, read_disk, recover};
use vd_report::line::Line;
use vd_report::printing::{print_sectors, say};
use vd_report::room::MOST;

fn header_line(error: HeaderError) -> Line
    ensures { result ≡ header_line error }
{
    match error {
        HeaderError::NotImage => Line::NotImage,
        HeaderError::Version(version) => Line::Version { version },
        HeaderError::Field(field) => Line::BadField { field },
    }
}

/// The line that says why an image was not opened.
pub fn show_line(error: OpenError) -> Line
    ensures { result ≡ show_line error }
{
    match error {
        OpenError::Store(ticket) => Line::StoreFault { ticket },
        OpenError::Header(error) => header_line(error),
        OpenError::TooSmall { need, have } => Line::TooSmall { need, have },
        OpenError::OldVersion => Line::OldVersion,
        OpenError::BadEntry { chunk, value } => Line::BadEntry { chunk, value },
        OpenError::BadRecord { slot } => Line::BadRecord { slot },
        OpenError::DoubleChunk { a, b } => Line::DoubleChunk {
            first: a,
            second: b,
        },
        OpenError::Changed { field } => Line::Changed { field },
        OpenError::NotBuilt => Line::NotBuilt,
        OpenError::NoMemory => Line::NoMemory,
    }
}

/// The line that names the device that failed to give sectors of the disk.
pub fn fault_line(fault: DiskFault) -> Line
    ensures { result ≡ fault_line fault }
{
    match fault {
        DiskFault::Store(ticket) => Line::StoreFault { ticket },
        DiskFault::Base(ticket) => Line::BaseFault { ticket },
    }
}

/// Whether the range lies past a disk of this size.
fn is_past(size: u64, first: u64, count: u64) -> bool
    ensures { result ≡ nat_lt size (first + count) }
{
    first > size || count > size - first
}

/// Finds the sectors of the disk from `first` on, as many as `room` has. The error is the line that says why not, of
/// status 3, 4, 5, 7 or 8.
fn find_sectors<S: Store, B: Base>(
    alloc: Global,
    store: &mut S,
    base: &mut B,
    first: u64,
    room: &mut [Sector],
) -> Result<(), Line>
    requires store_idle { S.flight store.old [] }
    requires base_idle { B.flight base.old [] }
    ensures reads { AreReadOnly S.Store B.Base (devices store.old base.old) (devices store.new base.new) }
    ensures found { Finds S.Store B.Base first (length room.old) (devices store.old base.old) (devices store.new base.new)
        (show_outcome result first room.new) }
{
    let state = match recover(alloc, store, 1) {
        Ok(state) => state,
        Err(refusal) => return Err(show_line(refusal)),
    };
    if is_past(state.header.size, first, room.len() as u64) {
        return Err(Line::PastTheDisk);
    }
    match read_disk(store, base, &state, first, room) {
        Ok(()) => Ok(()),
        Err(DiskFault::Store(ticket)) => Err(Line::StoreFault { ticket }),
        Err(DiskFault::Base(ticket)) => Err(Line::BaseFault { ticket }),
    }
}

/// Prints what `show` of `count` sectors from `first` on answers, from 1 to 2,048, and answers its status.
pub fn show<S: Store, B: Base, O: Sink>(
    alloc: Global,
    out: &mut O,
    store: &mut S,
    base: &mut B,
    first: u64,
    count: u64,
) -> u8
    requires store_idle { S.flight store.old [] }
    requires base_idle { B.flight base.old [] }
    requires count { count ≤ MOST }
    ensures reads { AreReadOnly S.Store B.Base (devices store.old base.old) (devices store.new base.new) }
    ensures answer { (outcome : Outcome)
        × Finds S.Store B.Base first count (devices store.old base.old) (devices store.new base.new) outcome
        × PrintsOutcome O.Sink outcome result out.old out.new }
{
    // For what its clause says alone: the store is ready.
    let _sectors = sectors_at_rest(store);
    let Ok(mut room) = vec![in alloc; Sector::filled(0); count as usize] else {
        return say(out, Line::NoMemory);
    };
    match find_sectors(alloc, store, base, first, room.as_mut_slice()) {
        Ok(()) => print_sectors(out, first, room.as_slice()),
        Err(line) => say(out, line),
    }
}
