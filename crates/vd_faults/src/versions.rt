//! The versions of each sector: its content at the start, and then that of each write. They are counted in one pass over the
//! log.

ghost use Rattle.std.specs.Prelude.{◌≡◌, ℕ, ◌+◌, ◌≤◌, ◌<◌, ◌^◌, List, length, Some, slice_get};
ghost use Rattle.vd_law.specs.declared.entry.Sector.{Sector as AnySector};
ghost use Rattle.vd_law.specs.declared.entry.CallId.{CallId};
ghost use Rattle.vd_law.specs.Entries.{Issue, Done, entry_of, past};
ghost use Rattle.vd_law.specs.Contents.{sector_in, issued_contents, firm_after};
ghost use Rattle.vd_faults.specs.declared.versions.Versions as declared;
ghost use Rattle.vd_faults.specs.Versions.{one_more, changed_if, change_of, HasCountedWrites, GoesOnCounting};
ghost use Rattle.vd_faults.specs.Steps.{IsVersionStep};
ghost use Rattle.vd_faults.specs.Traced.{IsTracedTape};

use crate::tape::Tape;
use vd_law::entry::{Event, Sector};

/// How many writes a sector has, and the number of the one that a crash leaves there, 0 for the content at the start.
#[derive(Clone, Copy, Drop)]
pub struct Versions {
    pub written: u64,
    pub chosen: u64,
}

impl Versions {
    /// No write was counted.
    pub const NONE: Versions = Versions {
        written: 0,
        chosen: 0,
    };

    /// With one more write.
    pub fn with_write(self) -> Versions
        ensures { result ≡ one_more self }
    {
        Versions {
            written: self.written.saturating_add(1),
            ..self
        }
    }
}

/// What an event makes of a sector's versions.
#[derive(Clone, Copy, Drop)]
enum Change {
    Written,
    Firm,
}

fn changed(versions: Versions, change: Change) -> Versions
    ensures { result ≡ change_of change versions }
{
    match change {
        Change::Written => versions.with_write(),
        Change::Firm => Versions {
            chosen: versions.written,
            ..versions
        },
    }
}

/// Changes the versions of the sectors that a content has.
fn change_range(all: &mut Vec<Versions>, change: Change, first: u64, content: &[Sector])
    requires { first + length content.now ≤ length all.old.items }
    ensures size { length all.new.items ≡ length all.old.items }
    ensures each { (s : ℕ) → slice_get all.new.items s ≡ changed_if (change_of change) (sector_in first content.now s) (slice_get all.old.items s) }
{
    let from = first as usize;
    for k in 0..content.len() {
        all[from + k] = changed(all[from + k], change);
    }
}

/// What an event is to the versions: a write that begins, one that is done, or neither.
#[derive(Clone, Copy, Drop)]
pub enum Step<'a> {
    Begins { first: u64, content: &'a [Sector] },
    IsDone,
    Other,
}

pub fn step_of(event: Event<'_>) -> Step<'_>
    ensures { IsVersionStep (entry_of event.entry) result }
{
    match event {
        Event::Issue {
            id: _,
            first,
            content,
        } => Step::Begins { first, content },
        Event::Done { id: _ } => Step::IsDone,
        _ => Step::Other,
    }
}

/// The first sector and the content of a write that begins.
fn write_of(event: Event<'_>) -> (u64, &[Sector])
    ensures { (id : CallId) (first : ℕ) (content : List AnySector) →
        entry_of event.entry ≡ Issue id first content → (result.0 ≡ first) × (result.1.now ≡ content) }
{
    match event {
        Event::Issue {
            id: _,
            first,
            content,
        } => (first, content),
        _ => (0, &[]),
    }
}

/// Counts the write that is done at this place, if it is among the sealed events.
fn count_done(all: &mut Vec<Versions>, tape: &Tape, i: u64)
    requires place { (id : CallId) × (slice_get tape.now.log.entries i ≡ Some (Done id)) }
    requires traced { IsTracedTape (length all.old.items) tape.now }
    ensures size { length all.new.items ≡ length all.old.items }
    ensures counted { GoesOnCounting tape.now.log.entries tape.now.sealed i all.old.items all.new.items }
{
    if i < tape.sealed() {
        let (first, content) = write_of(tape.log().event(tape.origin(i)));
        change_range(all, Change::Firm, first, content);
    }
}

/// Counts the event at this place.
fn count_event(all: &mut Vec<Versions>, tape: &Tape, i: u64)
    requires place { i < length tape.now.log.entries }
    requires short { length tape.now.log.entries < 2 ^ 64 }
    requires traced { IsTracedTape (length all.old.items) tape.now }
    ensures size { length all.new.items ≡ length all.old.items }
    ensures counted { GoesOnCounting tape.now.log.entries tape.now.sealed i all.old.items all.new.items }
{
    match step_of(tape.log().event(i)) {
        Step::Begins { first, content } => change_range(all, Change::Written, first, content),
        Step::IsDone => count_done(all, tape, i),
        Step::Other => {}
    }
}

fn clear(all: &mut Vec<Versions>)
    ensures size { length all.new.items ≡ length all.old.items }
    ensures each { (s : ℕ) (v : declared.Versions) → slice_get all.new.items s ≡ Some v → v ≡ record { written = 0; chosen = 0 } }
{
    for i in 0..all.len() {
        all[i] = Versions::NONE;
    }
}

/// Counts the writes of each sector, and finds the firm one.
pub fn count(all: &mut Vec<Versions>, tape: &Tape)
    requires traced { IsTracedTape (length all.old.items) tape.now }
    ensures size { length all.new.items ≡ length all.old.items }
    ensures written { (s : ℕ) (v : declared.Versions) →
        slice_get all.new.items s ≡ Some v → v.written ≡ length (issued_contents (past tape.now.log.entries) s) }
    ensures firm { (s : ℕ) (v : declared.Versions) → slice_get all.new.items s ≡ Some v → v.chosen ≡ firm_after (past tape.now.log.entries) s }
{
    clear(all);
    for i in 0..tape.len() {
        count_event(all, tape, i);
    }
}
