//! Short runs of each device, and what a crash leaves.
//!
//! A run is a text of words of four letters: w, r or f for the kind of call, its sector, the byte that it writes or reads,
//! and how it ends, `.` for done or `!` for failed. At first each sector is filled with the letter s.

ghost use Rattle.std.specs.Prelude.{◌≡◌, [], ◌∷◌, length};
ghost use Rattle.vd_device.specs.declared.ticket.Kind.TheVariants.{Read};
ghost use Rattle.vd_device.specs.Tickets.{IsTicket};
ghost use Rattle.vd_mem.specs.Flying.{Flies};

use crate::{Fuse, MemBase, MemStore};
use std::alloc::Global;
use std::process::Abort;
use std::test::Fail;
use vd_device::{Base, Settled, Store, Ticket, flush_now, read_base, read_now, write_now};
use vd_faults::{ByList, Chooser, Keep, Kept, Lost, Mixed, Rule};
use vd_law::entry::{Room, Sector};

fn place(letter: u8) -> u64 {
    u64::from(letter.saturating_sub(b'0'))
}

/// Whether the call ends as the word says.
fn ends<S: Store>(rt: &impl Abort, store: &mut S, word: &[u8]) -> bool {
    let [kind, at, byte, end] = *word else {
        return false;
    };
    let first = place(at);
    let _depth = store.depth();
    assert_eq!(rt; store.in_flight(), 0);
    assert!(rt; first < store.sectors());
    let mut out = [Sector::filled(if kind == b'r' { 0 } else { byte })];
    let answer = match kind {
        b'w' => write_now(store, first, &[Sector::filled(byte)]),
        b'r' => read_now(store, first, &mut out),
        _ => flush_now(store),
    };
    match answer {
        Ok(()) => end == b'.' && out == [Sector::filled(byte)],
        Err(_) => end == b'!',
    }
}

/// Whether all calls of the run end as it says.
fn runs<S: Store>(rt: &impl Abort, store: &mut S, run: &str) -> bool {
    let mut same = true;
    for word in run.split_whitespace() {
        same = ends(rt, store, word.as_bytes()) && same;
    }
    same
}

fn store(alloc: Global, events: u64, rules: &[Rule]) -> Result<MemStore, Fail> {
    let content = [Sector::filled(b's'); 2].to_vec(alloc)?;
    let room = Room {
        events,
        sectors: 20,
    };
    Ok(MemStore::new(alloc, content, room, rules.to_vec(alloc)?)?)
}

const AMPLE: u64 = 30;

const OLD: Keep = Keep::Old;

const NEW: Keep = Keep::New;

/// Rules, a run of calls as they then end, and how many calls fail.
type RuleRow<'a> = (&'a [Rule], &'a str, u64);

fn all_fail_so(rt: &impl Abort, alloc: Global, rows: &[RuleRow<'_>]) -> Result<(), Fail> {
    for (rules, run, faults) in rows {
        let mut store = store(alloc, AMPLE, rules)?;
        assert!(rt; runs(rt, &mut store, run), "{run}");
        assert_eq!(rt; (store.faults(), store.late()), (*faults, 0), "{run}");
    }
    Ok(())
}

#[test]
fn calls_fail_by_their_number(rt: HostRuntime) -> Result<(), Fail> {
    let rows: [RuleRow<'_>; 4] = [
        (&[], "w0a. r0a. f... r1s. w1b. r1b.", 0),
        (
            &[Rule::FailNth { nth: 2, keep: OLD }],
            "w0a. w0b! r0a. w0c. r0c.",
            1,
        ),
        (
            &[Rule::FailNth { nth: 3, keep: NEW }],
            "r0s. f... w0b! r0b.",
            1,
        ),
        (
            &[
                Rule::FailNth { nth: 1, keep: NEW },
                Rule::FailNth { nth: 2, keep: NEW },
            ],
            "r0s! f..! w0a. r0a.",
            2,
        ),
    ];
    all_fail_so(&rt, rt.alloc(), &rows)
}

#[test]
fn calls_fail_by_their_sector(rt: HostRuntime) -> Result<(), Fail> {
    let rows: [RuleRow<'_>; 2] = [
        (
            &[Rule::FailAt {
                sector: 1,
                nth: 2,
                keep: OLD,
            }],
            "w1a. w0a. r1a. w1b! r1a. w1c. r1c.",
            1,
        ),
        (
            &[
                Rule::FailNth { nth: 1, keep: OLD },
                Rule::FailAt {
                    sector: 0,
                    nth: 2,
                    keep: NEW,
                },
            ],
            "w0a! r0s. w0b! r0b.",
            2,
        ),
    ];
    all_fail_so(&rt, rt.alloc(), &rows)
}

/// A write, a flush and a read of the first sector, and how many events are told after each.
const SHORT: [(&str, u64); 3] = [("w0a.", 2), ("f...", 4), ("r0a.", 6)];

/// Whether so many events can be told, each call with an event that can't fails, and the count of events goes on.
fn stops<S: Store>(rt: &impl Abort, store: &mut S, events: u64) -> bool {
    let mut same = true;
    for (word, told) in &SHORT {
        let failed = ends(rt, store, word.as_bytes()) != (*told <= events);
        same = same && !failed && store.events() == *told;
    }
    same
}

#[test]
fn a_store_stops_at_each_event(rt: HostRuntime) -> Result<(), Fail> {
    let alloc = rt.alloc();
    for events in 0..8 {
        let mut full = store(alloc, events, &[])?;
        assert!(rt; stops(&rt, &mut full, events), "{events}");
        assert_eq!(rt; full.log().len(), events.min(6));
        let mut fuse = Fuse::new(store(alloc, AMPLE, &[])?, events);
        assert!(rt; stops(&rt, &mut fuse, events), "{events}");
        assert_eq!(rt; fuse.into_inner().log().len(), events.min(6));
    }
    Ok(())
}

#[test]
fn a_store_stops_without_room_for_sectors(rt: HostRuntime) -> Result<(), Fail> {
    let alloc = rt.alloc();
    let content = [Sector::filled(b's'); 2].to_vec(alloc)?;
    let room = Room {
        events: AMPLE,
        sectors: 2,
    };
    let mut store = MemStore::new(alloc, content, room, Vec::new(alloc))?;
    assert!(rt; runs(&rt, &mut store, "w0a. r0a. r1s! f..! w0b!"));
    assert_eq!(rt;
        (store.log().len(), store.events(), store.faults()),
        (5, 10, 3)
    );
    Ok(())
}

/// Submits a read of the first sector, which is in flight alone.
fn submit_alone(rt: &impl Abort, store: &mut MemStore) -> Ticket
    ensures alone { Flies store.new (result ∷ []) }
    ensures ticket { IsTicket result Read 0 1 }
    ensures sectors { length store.new.start ≡ 2 }
{
    assert_eq!(rt; store.in_flight(), 0);
    assert_eq!(rt; store.sectors(), 2);
    store.submit_read(0, 1)
}

/// Writes the second sector.
fn release(store: &mut MemStore, read: &Ticket)
    requires alone { Flies store.old (read.now ∷ []) }
    requires ticket { IsTicket read.now Read 0 1 }
    requires sectors { length store.old.start ≡ 2 }
    ensures { Flies store.new (read.now ∷ []) }
{
    let _ = write_now(store, 1, &[Sector::filled(b'b')]);
}

/// What a read that was held once answers to one more poll.
fn poll_again(store: &mut MemStore, read: Ticket) -> &'static str
    requires alone { Flies store.old (read ∷ []) }
    requires ticket { IsTicket read Read 0 1 }
{
    match store.settle(read, &mut [Sector::filled(0)]) {
        Settled::Done => "held, done",
        Settled::Failed(_) => "held, failed",
        Settled::NotYet(read) => {
            let _ = read.spend();
            "held, held"
        }
    }
}

/// What a read of the first sector answers, polled once, then once more, with a write of the second between if `released`.
fn polls(rt: &impl Abort, store: &mut MemStore, released: bool) -> &'static str {
    let read = submit_alone(rt, store);
    match store.settle(read, &mut [Sector::filled(0)]) {
        Settled::Done | Settled::Failed(_) => "ended",
        Settled::NotYet(read) => {
            if released {
                release(store, &read);
            }
            poll_again(store, read)
        }
    }
}

#[test]
fn holds_are_released_and_spent(rt: HostRuntime) -> Result<(), Fail> {
    let rows = [
        (0, false, "ended", 1, 0),
        (1, false, "held, failed", 1, 1),
        (1, true, "held, done", 0, 1),
        (2, false, "held, held", 0, 2),
    ];
    for (left, released, answers, faults, late) in &rows {
        let rules = [Rule::Hold {
            sector: 0,
            until: 1,
            polls: *left,
        }];
        let mut store = store(rt.alloc(), AMPLE, &rules)?;
        assert_eq!(rt; polls(&rt, &mut store, *released), *answers);
        assert_eq!(rt; (store.faults(), store.late()), (*faults, *late));
    }
    // a wait fails at once, until the other sector's ticket has ended
    let rules = [Rule::Hold {
        sector: 0,
        until: 1,
        polls: 9,
    }];
    let mut store = store(rt.alloc(), AMPLE, &rules)?;
    assert!(rt; runs(&rt, &mut store, "r0s! w0a! r0s! f... r1s. r0s. w0b. r0b."));
    assert_eq!(rt; (store.faults(), store.late()), (3, 0));
    Ok(())
}

/// What both sectors hold after a crash.
fn after_crash<C: Chooser>(rt: &impl Abort, store: MemStore, chooser: &mut C) -> [u8; 2] {
    let image = store.crash(chooser);
    assert_eq!(rt; image.log().len(), 0);
    match image.held() {
        [first, second] => [first.bytes[0], second.bytes[0]],
        _ => [0, 0],
    }
}

#[test]
fn crashes_leave_what_was_chosen(rt: HostRuntime) -> Result<(), Fail> {
    let alloc = rt.alloc();
    let fails = [Rule::FailNth { nth: 3, keep: OLD }];
    // the rules, the room for events, the run, the number chosen of each sector, and what is left
    let rows: [(&[Rule], u64, &str, [u64; 2], &[u8; 2]); 9] = [
        (&[], AMPLE, "", [0, 7], b"ss"),
        (&[], AMPLE, "w0a. w0b. w1c.", [0, 0], b"ss"),
        (&[], AMPLE, "w0a. w0b. w1c.", [1, 1], b"ac"),
        (&[], AMPLE, "w0a. w0b. w1c.", [2, 9], b"bc"),
        (&[], AMPLE, "w0a. w1b. f... w0c.", [0, 0], b"ab"),
        (&[], AMPLE, "w0a. w1b. f... w0c.", [1, 1], b"cb"),
        (&fails, AMPLE, "w0a. f... w0b! f...", [1, 1], b"bs"),
        (&fails, AMPLE, "w0a. w1a. f..! w0b.", [0, 1], b"sa"),
        (&[], 3, "w0a. w0b!", [2, 0], b"bs"),
    ];
    for (rules, events, run, numbers, left) in &rows {
        let mut store = store(alloc, *events, rules)?;
        assert!(rt; runs(&rt, &mut store, run), "{run}");
        let mut list = ByList::new([(0, numbers[0]), (1, numbers[1])].to_vec(alloc)?);
        assert_eq!(rt; after_crash(&rt, store, &mut list), **left, "{run}");
    }
    let mut firm = store(alloc, AMPLE, &[])?;
    assert!(rt; runs(&rt, &mut firm, "w0a. w1b. f... w0c. w0d."));
    assert_eq!(rt; after_crash(&rt, firm, &mut Lost), *b"ab");
    let mut last = store(alloc, AMPLE, &[])?;
    assert!(rt; runs(&rt, &mut last, "w0a. w1b. f... w0c. w0d."));
    assert_eq!(rt; after_crash(&rt, last, &mut Kept), *b"db");
    let mut drawn = store(alloc, AMPLE, &[])?;
    assert!(rt; runs(&rt, &mut drawn, "w0a. w1b. f... w0c."));
    let [first, second] = after_crash(&rt, drawn, &mut Mixed::new(5));
    assert!(rt; (first == b'a' || first == b'c') && second == b'b');
    Ok(())
}

/// Whether each read of the base, of two letters, the sector and how it ends, ends so.
fn reads(rt: &impl Abort, base: &mut MemBase, run: &str) -> bool {
    let mut same = true;
    for word in run.split_whitespace() {
        let [at, end] = *word.as_bytes() else {
            return false;
        };
        let first = place(at);
        assert_eq!(rt; base.in_flight(), 0);
        assert!(rt; first < base.sectors());
        let mut out = [Sector::filled(0)];
        let done = read_base(base, first, &mut out).is_ok();
        same = same && done == (end == b'.') && (out == [Sector::filled(at)]) == done;
    }
    same
}

fn all_read_so(rt: &impl Abort, alloc: Global, rows: &[RuleRow<'_>]) -> Result<(), Fail> {
    for (rules, run, faults) in rows {
        let content = [Sector::filled(b'0'), Sector::filled(b'1')].to_vec(alloc)?;
        let mut base = MemBase::new(content, rules.to_vec(alloc)?);
        assert!(rt; reads(rt, &mut base, run), "{run}");
        assert_eq!(rt; base.faults(), *faults, "{run}");
        assert_eq!(rt; base.reads(), run.split_whitespace().count() as u64);
    }
    Ok(())
}

#[test]
fn a_base_fails_by_its_rules(rt: HostRuntime) -> Result<(), Fail> {
    let rows: [RuleRow<'_>; 4] = [
        (&[], "0. 1. 0.", 0),
        (&[Rule::FailNth { nth: 2, keep: OLD }], "0. 1! 1.", 1),
        (
            &[Rule::FailAt {
                sector: 1,
                nth: 2,
                keep: OLD,
            }],
            "1. 0. 1! 0. 1.",
            1,
        ),
        (
            &[
                Rule::FailNth { nth: 1, keep: OLD },
                Rule::FailAt {
                    sector: 0,
                    nth: 2,
                    keep: OLD,
                },
            ],
            "0! 0! 0.",
            2,
        ),
    ];
    all_read_so(&rt, rt.alloc(), &rows)
}

#[test]
fn a_base_that_holds_a_read_fails_it(rt: HostRuntime) -> Result<(), Fail> {
    let rule = Rule::Hold {
        sector: 0,
        until: 1,
        polls: 9,
    };
    all_read_so(&rt, rt.alloc(), &[(&[rule], "0! 0! 1. 0.", 2)])
}
