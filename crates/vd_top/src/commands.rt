//! The commands that need no threads.

ghost use Rattle.std.specs.Prelude.{◌≡◌, ℕ, ◌<◌, ◌≤◌, ◌↔◌, ◌⊎◌, [], map, string_bytes, IfSome, IfNone, IsTrue, false, None, OnSome};
ghost use Rattle.vd_format.specs.declared.header.Header.{Header as AnyHeader};
ghost use Rattle.vd_format.specs.Layouts.{store_need};
ghost use Rattle.vd_device.specs.Quiet.{OnlyReads};
ghost use Rattle.vd_report.specs.Outcomes.{Outcome};
ghost use Rattle.vd_top.specs.Commands.{HasNoRoomFor, IsDone, MakesWhatIsAsked};
ghost use Rattle.vd_report.specs.Ending.{PrintsOutcome};
ghost use Rattle.vd_top.specs.Tasks.{IsTask};
ghost use Rattle.vd_top.specs.Asks.{AsksFor, IsNoMake, IsNoRun, IsNoCommand};
ghost use Rattle.vd_law.specs.Counts.{Rose};
ghost use Rattle.vd_device.specs.Devices.{devices, Leaves, HaveFailed};

use std::alloc::Global;
use vd_command::Command;
use vd_device::{Base, Store, sectors_at_rest};
use vd_format::{Header, layout_of};
use vd_io::sink::Sink;
use vd_io::source::Source;
use vd_make::make;
use vd_report::line::Line;
use vd_report::printing::say;
use vd_run::{End, run, unserved};
use vd_show::show;

/// What is to be done.
#[derive(Clone, Copy, Drop)]
enum Task {
    Show { first: u64, count: u64 },
    Make(Header),
    /// A run of one guest, without copies and workers.
    Run,
    /// The words are none of these.
    Nothing,
}

/// Whether a run is of one guest, without copies and workers.
fn is_alone(guests: u32, workers: u32, copying: bool, limit: u32) -> bool
    ensures { IsTrue result ↔ (guests ≡ 1) × (workers ≡ 0) × (copying ≡ false) × (limit ≡ 0) }
{
    guests == 1 && workers == 0 && !copying && limit == 0
}

/// What the words ask for, over a base of so many sectors.
fn task_of(words: &[String], base_sectors: u64) -> Task
    ensures { IsTask (map string_bytes words.now) base_sectors result }
{
    match Command::parse(words) {
        Some(command) => match command {
            Command::Show { first, count } => Task::Show { first, count },
            Command::Make {
                size,
                block,
                chunk,
                storage,
                slots,
            } => Task::Make(Header {
                version: 2,
                block,
                chunk,
                storage,
                slots,
                size,
                tracked: base_sectors.min(size),
                generation: 1,
            }),
            Command::Run {
                guests,
                workers,
                copying,
                limit,
            } => {
                if is_alone(guests, workers, copying, limit) {
                    Task::Run
                } else {
                    Task::Nothing
                }
            }
            _ => Task::Nothing,
        },
        None => Task::Nothing,
    }
}

/// The sectors of the store that the words make: the number that the image needs, where they are a `make`.
pub fn store_sectors(words: &[String]) -> Option<u64>
    ensures some { IfSome result (λ sectors. (h : AnyHeader) → AsksFor (map string_bytes words.now) 0 h → sectors ≡ store_need h) }
    ensures none { IfNone result (IsNoMake (map string_bytes words.now)) }
    ensures make { OnSome result (IsNoMake (map string_bytes words.now) → ⊥) }
{
    match task_of(words, 0) {
        Task::Make(header) => Some(layout_of(&header).need),
        Task::Show { .. } => None,
        Task::Run => None,
        Task::Nothing => None,
    }
}

/// Does the command that the words spell, over a store and a base with nothing in flight, and prints its text into `out`.
/// So far these are `show`, `make` and `run` of one guest without copies and workers, which reads its trace from `trace`; all
/// other words are answered `bad words`. It always returns.
///
/// Statuses: 0 the sectors were printed, the image was made, or each reply of the run is Ok; 1 a reply of the run isn't, the
/// closing flush's among them; 2 the words are outside the grammar; 3 the image is refused by its bytes or its size, as it is
/// opened or as a run opens it again; 4 a line of the trace is refused, or a range lies past the disk; 5 a device failed, of a
/// run in the opening, the closing, the reopening or at a line that shows sectors; 6 the source failed, or the sink where the
/// status would be 0 or 1; 7 there was no memory; 8 `show` of an image of version 1 that holds more than it was made with. Of
/// `show` the first of 2, 7, 5 or 3 or 8, 4, 5 that holds is answered, and 7 may come once the header is read; of `make` the
/// first of 2, 3, 7, 5; of `run` the first of 2, 6 or 4 of the trace, 7, 5 or 3 of the opening, 4 of a range, 7, 5, 3 of the
/// reopening, 6, 1. A run's first request comes behind all of these that stand before the second 5; nothing takes memory
/// after it. docs/FORMAT.md has the texts.
pub fn still<S: Store, B: Base, I: Source, O: Sink>(
    alloc: Global,
    words: &[String],
    trace: &mut I,
    out: &mut O,
    mut store: S,
    mut base: B,
) -> End<S, B>
    requires store_idle { S.flight store [] }
    requires base_idle { B.flight base [] }

    // What was answered, how it was printed, and the status. A run is answered by one line, which says why no guest was served;
    // or by the report of a legal history, which is handed out, and of the image that it has left. Each ticket that the reopening
    // or a line that shows sectors names as a store fault has a Reply in the told log that isn't Ok, behind the serving.
    ensures answer { (outcome : Outcome)
        × IsDone S.Store B.Base I.Source (map string_bytes words.now) (devices store base) result trace.old trace.new outcome
        × PrintsOutcome O.Sink outcome result.status out.old out.new }

    // The causes of statuses.
    ensures outside { (result.status ≡ 2) ↔ IsNoCommand (map string_bytes words.now) }
    ensures device { result.status ≡ 5 → HaveFailed S.Store B.Base (devices store base) (devices result.store result.base) }
    ensures streams { result.status ≡ 6 → Rose (I.faults trace.old) (I.faults trace.new) ⊎ Rose (O.faults out.old) (O.faults out.new) }

    // A made image is whole, and its making leaves no image or the whole one wherever it is cut off.
    ensures makes { MakesWhatIsAsked S.Store B.Base (map string_bytes words.now) result.status (devices store base) (devices result.store result.base) }

    // Nothing is written but by a run that serves a guest and where the words make an image that has room; and nothing is left in flight.
    ensures unwritten { result.history ≡ None → HasNoRoomFor S.Store B.Base (map string_bytes words.now) (devices store base)
        → OnlyReads S.Store store result.store }
    ensures leaves { Leaves S.Store B.Base (devices store base) (devices result.store result.base) }

    // No other command reads the source or has a history.
    ensures alone { IsNoRun (map string_bytes words.now) → (trace.new ≡ trace.old) × (result.history ≡ None) }
{
    match task_of(words, base.sectors()) {
        Task::Show { first, count } => {
            let status = show(alloc, out, &mut store, &mut base, first, count);
            unserved(status, store, base)
        }
        Task::Make(header) => {
            let status = make(alloc, out, &mut store, &header);
            unserved(status, store, base)
        }
        Task::Run => run(alloc, trace, out, store, base),
        Task::Nothing => {
            // For what its clause says alone: the store is ready.
            let _sectors = sectors_at_rest(&store);
            unserved(say(out, Line::BadWords), store, base)
        }
    }
}
