//! How a log keeps an entry: a small record, and its content among the sectors of all entries. Entries may share sectors.

ghost use Rattle.std.specs.Prelude.{◌≡◌, ℕ, ◌+◌, ◌<◌, ◌≤◌, [], ◌∷◌, ◌++◌, length, take, vec_capacity};
ghost use Rattle.vd_law.specs.Entries.{entry_of, asked_of};
ghost use Rattle.vd_law.specs.Logs.{content_of, asked_content};
ghost use Rattle.vd_log.specs.StoredEntries.{entry_in, HasContentWithin, IsShared};

use crate::sharing::{Shared, Stretch, share, share_next, stretch_of};
use vd_law::entry::{Answer, CallId, Event, Request, Sector};

#[derive(Clone, Copy, Drop)]
pub enum Stored {
    AskRead {
        id: CallId,
        first: u64,
        count: u64,
    },
    AskWrite {
        id: CallId,
        first: u64,
        content: Stretch,
    },
    AskFlush {
        id: CallId,
    },
    Issue {
        id: CallId,
        first: u64,
        content: Stretch,
    },
    Done {
        id: CallId,
    },
    Broke {
        id: CallId,
    },
    Seen {
        id: CallId,
        first: u64,
        content: Stretch,
    },
    Reply {
        id: CallId,
        answer: Answer,
    },
}

/// Puts an entry behind the others, in the room that was reserved.
pub fn append(entries: &mut Vec<Stored>, entry: Stored)
    requires { length entries.old.items < vec_capacity entries.old }
    ensures entries { entries.new.items ≡ entries.old.items ++ entry ∷ [] }
    ensures room { vec_capacity entries.old ≤ vec_capacity entries.new }
{
    let _ = entries.push(entry);
}

/// What is stored of an event, whose content then stands among the sectors.
pub fn stored_of(sectors: &mut Vec<Sector>, shared: &mut Shared, event: Event<'_>) -> Stored
    requires room { length sectors.old.items + shared.old.spare + length (content_of (entry_of event)) ≤ vec_capacity sectors.old }
    requires shared { IsShared sectors.old.items shared.old }
    ensures entry { entry_in sectors.new.items result ≡ entry_of event.entry }
    ensures within { HasContentWithin (length sectors.new.items) result }
    ensures shared { IsShared sectors.new.items shared.new }
    ensures earlier { take (length sectors.old.items) sectors.new.items ≡ sectors.old.items }
    ensures count { length sectors.new.items + shared.new.spare ≤ length sectors.old.items + shared.old.spare + length (content_of (entry_of event.entry)) }
    ensures room { vec_capacity sectors.old ≤ vec_capacity sectors.new }
{
    match event {
        Event::Ask { id, request } => match request {
            Request::Read { first, count } => Stored::AskRead { id, first, count },
            Request::Write { first, content } => {
                let content = share(sectors, shared, content);
                shared.next = content;
                Stored::AskWrite { id, first, content }
            }
            Request::Flush => Stored::AskFlush { id },
        },
        Event::Issue { id, first, content } => Stored::Issue {
            id,
            first,
            content: share_next(sectors, shared, content),
        },
        Event::Done { id } => Stored::Done { id },
        Event::Broke { id } => Stored::Broke { id },
        Event::Seen { id, first, content } => Stored::Seen {
            id,
            first,
            content: share(sectors, shared, content),
        },
        Event::Reply { id, answer } => Stored::Reply { id, answer },
    }
}

/// The event that a record stands for.
pub fn event_of<'a>(sectors: &'a [Sector], stored: &Stored) -> Event<'a>
    requires { HasContentWithin (length sectors.now) stored.now }
    ensures { entry_of result ≡ entry_in sectors.now stored.now }
{
    match *stored {
        Stored::AskRead { id, first, count } => Event::Ask {
            id,
            request: Request::Read { first, count },
        },
        Stored::AskWrite { id, first, content } => Event::Ask {
            id,
            request: Request::Write {
                first,
                content: stretch_of(sectors, content),
            },
        },
        Stored::AskFlush { id } => Event::Ask {
            id,
            request: Request::Flush,
        },
        Stored::Issue { id, first, content } => Event::Issue {
            id,
            first,
            content: stretch_of(sectors, content),
        },
        Stored::Done { id } => Event::Done { id },
        Stored::Broke { id } => Event::Broke { id },
        Stored::Seen { id, first, content } => Event::Seen {
            id,
            first,
            content: stretch_of(sectors, content),
        },
        Stored::Reply { id, answer } => Event::Reply { id, answer },
    }
}
