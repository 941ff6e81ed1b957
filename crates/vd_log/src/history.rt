//! A history: a log, and a number for each of its entries.

ghost use Rattle.std.specs.Prelude.{◌≡◌, ℕ, ◌+◌, ◌^◌, ◌<◌, ◌≤◌, List, [], ◌∷◌, ◌++◌, length, take, IfOk, slice_get, Some, vec_capacity};
ghost use Rattle.std.specs.List.{All};
ghost use Rattle.vd_law.specs.declared.entry.Sector.{Sector};
ghost use Rattle.vd_law.specs.Entries.{entry_of, call_of};
ghost use Rattle.vd_law.specs.Contents.{could, may};
ghost use Rattle.vd_law.specs.Rules.{IsLegal};
ghost use Rattle.vd_law.specs.Joining.{raised_entry, joined_entries, after_history, IsQuiet, CallsFit, sectors_told};
ghost use Rattle.vd_law.specs.Logs.{content_of, IsShort};
ghost use Rattle.vd_log.specs.Adding.{TakesRoom};
ghost use Rattle.vd_law.specs.Histories.{IsRising, last_number, count_up_to, entries_up_to};

use crate::calls::last_call;
use crate::log::Log;
use std::alloc::Global;
use std::marker::Model;
use vd_law::entry::{CallId, Event, NoMemory, Room, call_of};

/// A log, a number for each of its entries, and the number of opening.
#[derive(Drop)]
pub struct History {
    log: Log,
    numbers: Vec<u64>,
    opened: u64,
}

impl Model for History {
    ghost use Rattle.vd_law.specs.Histories.{HistoryState};

    ghost Value = { HistoryState };

    ghost use Rattle.vd_log.specs.HistoryFields.{history_state, IsNumbered};

    ghost view = { history_state };

    ghost invariant = { IsNumbered };
}

/// Puts a number behind the others, in the room that was reserved.
fn append(numbers: &mut Vec<u64>, number: u64)
    requires { length numbers.old.items < vec_capacity numbers.old }
    ensures numbers { numbers.new.items ≡ numbers.old.items ++ number ∷ [] }
    ensures room { vec_capacity numbers.old ≤ vec_capacity numbers.new }
{
    let _ = numbers.push(number);
}

fn raised_id(id: CallId, by: u64) -> CallId
    requires { by + id.call < 2 ^ 64 }
    ensures pass { result.pass ≡ id.pass }
    ensures call { result.call ≡ by + id.call }
{
    CallId {
        pass: id.pass,
        call: by + id.call,
    }
}

/// The event, where its pass had this many calls before.
fn raised(event: Event<'_>, by: u64) -> Event<'_>
    requires { by + (call_of (entry_of event)).call < 2 ^ 64 }
    ensures { (calls : ℕ → ℕ) → calls (call_of (entry_of event.entry)).pass ≡ by → entry_of result ≡ raised_entry calls (entry_of event.entry) }
{
    match event {
        Event::Ask { id, request } => Event::Ask {
            id: raised_id(id, by),
            request,
        },
        Event::Issue { id, first, content } => Event::Issue {
            id: raised_id(id, by),
            first,
            content,
        },
        Event::Done { id } => Event::Done {
            id: raised_id(id, by),
        },
        Event::Broke { id } => Event::Broke {
            id: raised_id(id, by),
        },
        Event::Seen { id, first, content } => Event::Seen {
            id: raised_id(id, by),
            first,
            content,
        },
        Event::Reply { id, answer } => Event::Reply {
            id: raised_id(id, by),
            answer,
        },
    }
}

impl History {
    /// An empty history with this room, opened at 0.
    pub fn new(alloc: Global, room: Room) -> Result<History, NoMemory>
        ensures entries { IfOk result (λ history. history.log.entries ≡ []) }
        ensures left { IfOk result (λ history. history.log.left ≡ room) }
        ensures room { IfOk result (λ history. history.log.room ≡ room) }
        ensures numbers { IfOk result (λ history. history.numbers ≡ []) }
        ensures opened { IfOk result (λ history. history.opened ≡ 0) }
    {
        let log = Log::new(alloc, room)?;
        let numbers = Vec::with_capacity(alloc, room.events as usize)?;
        Ok(History {
            log,
            numbers,
            opened: 0,
        })
    }

    /// Sets the number of opening, while there are no entries.
    pub fn open_at(&mut self, at: u64)
        requires { self.old.log.entries ≡ [] }
        ensures { self.new ≡ record self.old { opened = at } }
    {
        self.opened = at;
    }

    /// Appends an event with its number, in the room that was reserved.
    pub fn add(&mut self, event: Event<'_>, at: u64)
        requires events { 0 < self.old.log.left.events }
        requires sectors { length (content_of (entry_of event)) ≤ self.old.log.left.sectors }
        requires short { IsShort (entry_of event) }
        requires later { last_number self.old.opened self.old.numbers ≤ at }
        ensures entries { self.new.log.entries ≡ self.old.log.entries ++ entry_of event.entry ∷ [] }
        ensures numbers { self.new.numbers ≡ self.old.numbers ++ at ∷ [] }
        ensures opened { self.new.opened ≡ self.old.opened }
        // what was so up to an earlier number stays
        ensures earlier { (k : ℕ) → k < at → entries_up_to k self.new ≡ entries_up_to k self.old }
        ensures takes { TakesRoom (entry_of event.entry) self.old.log self.new.log }
    {
        append(&mut self.numbers, at);
        self.log.add(event);
    }

    pub fn log(&self) -> &Log
        ensures log { result.now ≡ self.now.log }
        ensures each { length self.now.numbers ≡ length self.now.log.entries }
        ensures short { All IsShort self.now.log.entries }
        ensures rising { IsRising self.now.opened self.now.numbers }
    {
        &self.log
    }

    /// The number of an entry.
    pub fn at(&self, entry: u64) -> u64
        requires { entry < length self.now.log.entries }
        ensures { slice_get self.now.numbers entry ≡ Some result }
    {
        self.numbers[entry as usize]
    }

    pub fn opened(&self) -> u64
        ensures { result ≡ self.now.opened }
    {
        self.opened
    }

    /// How many entries have a number of at most k.
    pub fn up_to(&self, k: u64) -> u64
        ensures { result ≡ count_up_to k self.now.numbers }
    {
        self.numbers.iter().filter(|number| **number <= k).count() as u64
    }

    /// Goes on with the entries of another history, whose calls count on from this one's.
    pub fn join(&mut self, next: &History)
        requires events { length next.now.log.entries ≤ self.old.log.left.events }
        requires sectors { sectors_told next.now.log.entries ≤ self.old.log.left.sectors }
        requires later { last_number self.old.opened self.old.numbers ≤ next.now.opened }
        requires calls { CallsFit self.old.log.entries next.now.log.entries }
        ensures entries { self.new.log.entries ≡ joined_entries self.old.log.entries next.now.log.entries }
        ensures numbers { self.new.numbers ≡ self.old.numbers ++ next.now.numbers }
        ensures opened { self.new.opened ≡ self.old.opened }
        // a history that is legal from where a quiet one ends is legal as its continuation
        ensures legal { (start : List Sector) → IsLegal start self.old.log.entries → IsQuiet self.old.log.entries →
            IsLegal (after_history start self.old.log.entries) next.now.log.entries → IsLegal start self.new.log.entries }
        // and after n of its entries each sector is what they say from the disk where the quiet one ends
        ensures could { (start : List Sector) (n s : ℕ) → s < length start → IsLegal start self.old.log.entries → IsQuiet self.old.log.entries →
            could start (take (length self.old.log.entries + n) self.new.log.entries) s ≡ could (after_history start self.old.log.entries) (take n next.now.log.entries) s }
        ensures may { (start : List Sector) (n s : ℕ) → s < length start → IsLegal start self.old.log.entries → IsQuiet self.old.log.entries →
            IsLegal (after_history start self.old.log.entries) next.now.log.entries →
            may start (take (length self.old.log.entries + n) self.new.log.entries) s ≡ may (after_history start self.old.log.entries) (take n next.now.log.entries) s }
    {
        let before = self.log.len();
        for i in 0..next.log.len() {
            let event = next.log.event(i);
            let by = last_call(&self.log, before, call_of(event).pass);
            self.add(raised(event, by), next.at(i));
        }
    }
}
