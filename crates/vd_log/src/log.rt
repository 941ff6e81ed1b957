//! A log of events, whose memory is taken when it is made.

ghost use Rattle.std.specs.Prelude.{◌≡◌, ℕ, ◌+◌, ◌^◌, ◌<◌, ◌≤◌, [], ◌∷◌, ◌++◌, length, IfOk, slice_get, Some};
ghost use Rattle.std.specs.List.{All};
ghost use Rattle.vd_law.specs.Entries.{entry_of};
ghost use Rattle.vd_law.specs.Logs.{content_of, IsShort};

use crate::sharing::{SPARE, Shared};
use crate::stored::{Stored, append, event_of, stored_of};
use std::alloc::Global;
use std::marker::Model;
use vd_law::entry::{Event, NoMemory, Room, Sector, content_of};

/// The events of a history, in order.
#[derive(Drop)]
pub struct Log {
    stored: Vec<Stored>,
    sectors: Vec<Sector>,
    /// How many sectors the entries tell.
    told: u64,
    shared: Shared,
    room: Room,
}

impl Model for Log {
    ghost use Rattle.vd_law.specs.Logs.{LogState};

    ghost Value = { LogState };

    ghost use Rattle.vd_log.specs.LogFields.{log_state, IsSoundLog};

    ghost view = { log_state };

    ghost invariant = { IsSoundLog };
}

impl Log {
    /// An empty log with this room.
    pub fn new(alloc: Global, room: Room) -> Result<Log, NoMemory>
        ensures empty { IfOk result (λ log. log.entries ≡ []) }
        ensures left { IfOk result (λ log. log.left ≡ room) }
        ensures room { IfOk result (λ log. log.room ≡ room) }
    {
        let stored = Vec::with_capacity(alloc, room.events as usize)?;
        let Some(most) = (room.sectors as usize).checked_add(SPARE) else {
            return Err(NoMemory);
        };
        let sectors = Vec::with_capacity(alloc, most)?;
        let shared = Shared::new(alloc)?;
        Ok(Log {
            stored,
            sectors,
            told: 0,
            shared,
            room,
        })
    }

    /// Appends an event, in the room that was reserved.
    pub fn add(&mut self, event: Event<'_>)
        requires events { 0 < self.old.left.events }
        requires sectors { length (content_of (entry_of event)) ≤ self.old.left.sectors }
        requires short { IsShort (entry_of event) }
        ensures entries { self.new.entries ≡ self.old.entries ++ entry_of event.entry ∷ [] }
        ensures events { self.new.left.events + 1 ≡ self.old.left.events }
        ensures sectors { self.new.left.sectors + length (content_of (entry_of event.entry)) ≡ self.old.left.sectors }
        ensures room { self.new.room ≡ self.old.room }
    {
        self.told += content_of(event).len() as u64;
        let stored = stored_of(&mut self.sectors, &mut self.shared, event);
        append(&mut self.stored, stored);
    }

    /// Takes all events out. The room with which the log was made is left again.
    pub fn clear(&mut self)
        ensures entries { self.new.entries ≡ [] }
        ensures left { self.new.left ≡ self.old.room }
        ensures room { self.new.room ≡ self.old.room }
    {
        self.stored.clear();
        self.sectors.clear();
        self.told = 0;
        self.shared.clear();
    }

    pub fn len(&self) -> u64
        ensures count { result ≡ length self.now.entries }
        ensures bounded { result < 2 ^ 63 }
        ensures short { All IsShort self.now.entries }
    {
        self.stored.len() as u64
    }

    pub fn event(&self, at: u64) -> Event<'_>
        requires { at < length self.now.entries }
        ensures { slice_get self.now.entries at ≡ Some (entry_of result) }
    {
        event_of(self.sectors.as_slice(), &self.stored[at as usize])
    }

    /// The room that is left.
    pub fn left(&self) -> Room
        ensures { result ≡ self.now.left }
    {
        Room {
            events: self.room.events - self.stored.len() as u64,
            sectors: self.room.sectors - self.told,
        }
    }
    /// How many sectors are kept.
    #[cfg(test)]
    pub(crate) fn kept(&self) -> usize {
        self.sectors.len()
    }
}
