//! Contents that are kept once, and read back as they were told.

use crate::log::Log;
use crate::tests::add_event;
use std::test::Fail;
use vd_law::entry::{CallId, Event, Request, Room, Sector, content_of};

const CALL: CallId = CallId { pass: 1, call: 1 };

/// Room for what `pieces` tell, and for six events more.
const ROOM: Room = Room {
    events: 32,
    sectors: 174,
};

fn ask(content: &[Sector]) -> Event<'_> {
    Event::Ask {
        id: CALL,
        request: Request::Write { first: 0, content },
    }
}

fn issue(first: u64, content: &[Sector]) -> Event<'_> {
    Event::Issue {
        id: CALL,
        first,
        content,
    }
}

fn seen(content: &[Sector]) -> Event<'_> {
    Event::Seen {
        id: CALL,
        first: 0,
        content,
    }
}

/// Events, and how many sectors are kept after each: an Issue of what comes next adds none, and neither does a Write or a Seen
/// with a content that was told before. Two copies of one sector or more begin a run of 64.
fn pieces<'a>(
    whole: &'a [Sector; 3],
    other: &'a [Sector; 2],
    alike: &'a [Sector; 2],
    same: &'a [Sector; 65],
) -> [(Event<'a>, usize); 26] {
    [
        (ask(whole), 3),
        (issue(0, &whole[..2]), 3),
        (issue(2, &whole[2..]), 3),
        // none is next
        (issue(2, &whole[2..]), 4),
        // an equal content, which is next again
        (ask(whole), 4),
        // another content of equal length, which leaves the next ones
        (issue(0, other), 6),
        (issue(0, &whole[..2]), 6),
        // longer than the next ones
        (issue(1, &whole[1..]), 8),
        (issue(2, &whole[2..]), 8),
        // a shorter front
        (ask(&whole[..2]), 8),
        (seen(&whole[..2]), 8),
        // another content with the same first sector
        (ask(other), 10),
        (seen(other), 10),
        // one with another first sector, and a longer one
        (ask(&whole[1..2]), 11),
        (seen(&whole[1..]), 13),
        (ask(&whole[1..]), 13),
        // a content that begins as another does, which is forgotten for it
        (seen(alike), 15),
        (ask(whole), 18),
        (ask(&whole[..0]), 18),
        (seen(whole), 18),
        (ask(&same[..2]), 82),
        (issue(0, &same[..1]), 82),
        (seen(&same[..3]), 82),
        // more copies than a run has
        (seen(same), 147),
        (ask(&same[..64]), 147),
        // one sector that a run has
        (seen(&same[64..]), 147),
    ]
}

/// Two sectors that differ from these in their last byte alone.
fn alike_to(whole: &[Sector; 3]) -> [Sector; 2] {
    let mut last = whole[1];
    last.bytes[511] = b'4';
    [whole[0], last]
}

fn is_issue(event: Event<'_>) -> bool {
    matches!(
        event,
        Event::Issue {
            id: _,
            first: _,
            content: _
        }
    )
}

#[test]
fn contents_shared_and_not(rt: HostRuntime) -> Result<(), Fail> {
    let whole = [Sector::filled(1), Sector::filled(2), Sector::filled(3)];
    let other = [Sector::filled(1), Sector::filled(4)];
    let alike = alike_to(&whole);
    let same = [Sector::filled(5); 65];
    let mut log = Log::new(rt.alloc(), ROOM)?;
    for (event, _) in pieces(&whole, &other, &alike, &same) {
        add_event(&mut log, event)?;
    }
    assert_eq!(rt; log.left().events, 6);
    assert_eq!(rt; log.left().sectors, 0);
    for (at, (event, _)) in pieces(&whole, &other, &alike, &same)
        .into_iter()
        .enumerate()
    {
        if (at as u64) < log.len() {
            let read = log.event(at as u64);
            assert!(rt;
                content_of(read) == content_of(event),
                "the content at {at}"
            );
            assert_eq!(rt; is_issue(read), is_issue(event), "the kind at {at}");
        }
    }
    Ok(())
}

#[test]
fn sectors_kept_once(rt: HostRuntime) -> Result<(), Fail> {
    let whole = [Sector::filled(1), Sector::filled(2), Sector::filled(3)];
    let other = [Sector::filled(1), Sector::filled(4)];
    let alike = alike_to(&whole);
    let same = [Sector::filled(5); 65];
    let mut log = Log::new(rt.alloc(), ROOM)?;
    for (event, kept) in pieces(&whole, &other, &alike, &same) {
        add_event(&mut log, event)?;
        assert_eq!(rt; log.kept(), kept);
    }
    Ok(())
}
