//! A log that stops where it has no room.

ghost use Rattle.std.specs.Prelude.{◌≡◌, ℕ, ◌+◌, ◌^◌, ◌<◌, ◌≤◌, [], ◌∷◌, ◌++◌, length, Some, IfOk, slice_get, vec_capacity};
ghost use Rattle.vd_law.specs.Logs.{content_of, IsShort};
ghost use Rattle.vd_law.specs.Entries.{entry_of};
ghost use Rattle.vd_faults.specs.Tapes.{blank, runs_on, takes, taped, sealed_by, events_told, content_at};

use std::alloc::Global;
use std::marker::Model;
use vd_law::entry::{Answer, Event, NoMemory, Room, Sector, content_of};
use vd_log::log::Log;

/// A log, and for each of its events the place of the event with which its call began; and how many of them stood before the
/// Ask of that flush which was asked last, of those that are done. Where it has no room for an event it stops, and counts the
/// calls from then on.
#[derive(Drop)]
pub struct Tape {
    log: Log,
    origins: Vec<u64>,
    sealed: u64,
    fuse: Option<u64>,
    over: u64,
}

impl Model for Tape {
    ghost use Rattle.vd_faults.specs.Tapes.{TapeState};

    ghost Value = { TapeState };

    ghost use Rattle.vd_faults.specs.TapeFields.{tape_of, HasRoomForOrigins};

    ghost view = { tape_of };

    ghost invariant = { HasRoomForOrigins };
}

/// Puts a place behind the others, in the room that was reserved.
fn append(places: &mut Vec<u64>, place: u64)
    requires { length places.old.items < vec_capacity places.old }
    ensures places { places.new.items ≡ places.old.items ++ place ∷ [] }
    ensures room { vec_capacity places.old ≤ vec_capacity places.new }
{
    let _ = places.push(place);
}

/// How many events are sealed after this one, whose call began at `origin`.
fn sealed_by(event: Event<'_>, origin: u64, sealed: u64) -> u64
    ensures { result ≡ sealed_by (entry_of event.entry) origin sealed }
{
    match event {
        Event::Reply {
            id: _,
            answer: Answer::Ok,
        } => sealed.max(origin),
        _ => sealed,
    }
}

impl Tape {
    pub fn new(alloc: Global, room: Room) -> Result<Tape, NoMemory>
        ensures { IfOk result (λ t. t ≡ blank room) }
    {
        let log = Log::new(alloc, room)?;
        let origins = Vec::with_capacity(alloc, room.events as usize)?;
        Ok(Tape {
            log,
            origins,
            sealed: 0,
            fuse: None,
            over: 0,
        })
    }

    /// Whether it goes on: it hasn't stopped, and the fuse isn't through.
    pub fn runs_on(&self) -> bool
        ensures { result ≡ runs_on self.now.log self.now.fuse self.now.over }
    {
        self.over == 0
            && match self.fuse {
                Some(most) => self.log.len() < most,
                None => true,
            }
    }

    /// Adds an event, whose call began at this place. Where there is no room for it the tape stops, and answers false.
    pub fn add(&mut self, event: Event<'_>, origin: u64) -> bool
        requires { IsShort (entry_of event) }
        ensures added { result ≡ takes self.old.log self.old.fuse self.old.over (entry_of event.entry) }
        ensures after { self.new ≡ taped (entry_of event.entry) origin self.old }
        ensures short { length self.new.log.entries < 2 ^ 63 }
    {
        let left = self.log.left();
        if self.runs_on() && left.events > 0 && content_of(event).len() as u64 <= left.sectors {
            self.log.add(event);
            append(&mut self.origins, origin);
            self.sealed = sealed_by(event, origin, self.sealed);
            true
        } else {
            self.over = self.over.saturating_add(1);
            false
        }
    }

    /// How many events the log has.
    pub fn len(&self) -> u64
        ensures { result ≡ length self.now.log.entries }
    {
        self.log.len()
    }

    /// How many events it tells: those of the log, and the calls since it stopped.
    pub fn events(&self) -> u64
        ensures { result ≡ events_told self.now.log self.now.over }
    {
        self.log.len().saturating_add(self.over)
    }

    /// The sectors that the event at this place tells.
    pub fn content(&self, at: u64) -> &[Sector]
        requires { at < length self.now.log.entries }
        ensures { result.now ≡ content_at self.now.log.entries at }
    {
        content_of(self.log.event(at))
    }

    /// The place of the event with which the call of the event at this place began.
    pub fn origin(&self, at: u64) -> u64
        requires { at < length self.now.log.entries }
        ensures { slice_get self.now.origins at ≡ Some result }
    {
        self.origins[at as usize]
    }

    pub fn sealed(&self) -> u64
        ensures { result ≡ self.now.sealed }
    {
        self.sealed
    }

    /// Lets the log have so many events, or as many as there is room for.
    pub fn set_fuse(&mut self, fuse: Option<u64>)
        ensures { self.new ≡ record self.old { fuse = fuse } }
    {
        self.fuse = fuse;
    }

    /// Takes all events out and goes on, with no fuse.
    pub fn clear(&mut self)
        ensures { self.new ≡ blank self.old.log.room }
    {
        self.log.clear();
        self.origins.clear();
        self.sealed = 0;
        self.fuse = None;
        self.over = 0;
    }

    pub fn log(&self) -> &Log
        ensures { result.now ≡ self.now.log }
    {
        &self.log
    }
}
