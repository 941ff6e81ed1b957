//! Logs and histories within their room.

ghost use Rattle.std.specs.Prelude.{◌≡◌, [], length};
ghost use Rattle.vd_law.specs.Entries.{entry_of};
ghost use Rattle.vd_law.specs.Logs.{content_of};

use crate::history::History;
use crate::log::Log;
use std::test::Fail;
use vd_law::entry::{Answer, CallId, Event, NoMemory, Request, Room, Sector, content_of};

pub(crate) fn add_event(log: &mut Log, event: Event<'_>) -> Result<(), NoMemory> {
    let left = log.left();
    let told = content_of(event).len();
    if left.events == 0 || left.sectors < told as u64 || told > 2048 {
        return Err(NoMemory);
    }
    log.add(event);
    Ok(())
}

fn flush(call: u64) -> Event<'static>
    ensures { content_of (entry_of result) ≡ [] }
{
    Event::Ask {
        id: CallId { pass: 1, call },
        request: Request::Flush,
    }
}

fn flushed(call: u64) -> Event<'static>
    ensures { content_of (entry_of result) ≡ [] }
{
    Event::Reply {
        id: CallId { pass: 1, call },
        answer: Answer::Ok,
    }
}

#[test]
fn numbered_entries(rt: HostRuntime) -> Result<(), Fail> {
    let room = Room {
        events: 4,
        sectors: 0,
    };
    let mut history = History::new(rt.alloc(), room)?;
    history.open_at(5);
    history.add(flush(1), 5);
    history.add(flushed(1), 8);
    history.add(flush(2), 8);
    assert_eq!(rt; history.log().len(), 3);
    assert_eq!(rt; history.log().left().events, 1);
    assert_eq!(rt; history.opened(), 5);
    assert_eq!(rt; history.at(1), 8);
    for (k, entries) in [(4, 0), (5, 1), (7, 1), (8, 3), (9, 3)] {
        assert_eq!(rt; history.up_to(k), entries, "up to {k}");
    }
    Ok(())
}

/// As many sectors in one event as a request has at most.
#[test]
fn the_longest_event(rt: HostRuntime) -> Result<(), Fail> {
    let room = Room {
        events: 2,
        sectors: 4096,
    };
    let content = vec![in rt.alloc(); Sector::filled(1); 2048]?;
    let mut log = Log::new(rt.alloc(), room)?;
    let id = CallId { pass: 1, call: 1 };
    add_event(
        &mut log,
        Event::Issue {
            id,
            first: 0,
            content: content.as_slice(),
        },
    )?;
    assert_eq!(rt; log.len(), 1);
    assert_eq!(rt; log.left().sectors, 2048);
    Ok(())
}

#[test]
fn sectors_of_one_byte(rt: HostRuntime) -> Result<(), Fail> {
    let mut sector = Sector::filled(9);
    assert_eq!(rt; sector.same(), Some(9));
    sector.bytes[511] = 8;
    assert_eq!(rt; sector.same(), None);
    Ok(())
}
