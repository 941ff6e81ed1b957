//! Small histories, legal and not, and what their sectors could hold.
//!
//! A history is written as a text of words of six letters: the kind of event, the pass, the call, the first sector (of a
//! Reply the answer), and the bytes of up to two sectors (of a Read the count, of a fault the sectors that are done).

use crate::deciding;
use crate::list::List;
use std::alloc::Global;
use std::test::Fail;
use vd_law::entry::{Answer, CallId, Event, NoMemory, Request, Room, Sector, content_of};
use vd_log::log::Log;

fn add_event(log: &mut Log, event: Event<'_>) -> Result<(), NoMemory> {
    let left = log.left();
    let told = content_of(event).len();
    if left.events == 0 || left.sectors < told as u64 || told > 2048 {
        return Err(NoMemory);
    }
    log.add(event);
    Ok(())
}

fn digit(byte: u8) -> u8 {
    byte.saturating_sub(b'0')
}

fn sector(byte: u8) -> Sector {
    Sector::filled(digit(byte))
}

fn answer_of(letter: u8, done: u64) -> Answer {
    match letter {
        b'o' => Answer::Ok,
        b'f' => Answer::Full { needed: 1, free: 0 },
        b's' => Answer::StoreFault { ticket: 7, done },
        b'b' => Answer::BaseFault { ticket: 7, done },
        b'w' => Answer::Worn { generation: 9 },
        _ => Answer::NoRoom {
            events: 0,
            sectors: 0,
        },
    }
}

fn event_of(kind: u8, id: CallId, place: u8, size: u8, content: &[Sector]) -> Event<'_> {
    let first = u64::from(digit(place));
    match kind {
        b'R' => Event::Ask {
            id,
            request: Request::Read {
                first,
                count: u64::from(digit(size)),
            },
        },
        b'W' => Event::Ask {
            id,
            request: Request::Write { first, content },
        },
        b'F' => Event::Ask {
            id,
            request: Request::Flush,
        },
        b'I' => Event::Issue { id, first, content },
        b'D' => Event::Done { id },
        b'B' => Event::Broke { id },
        b'S' => Event::Seen { id, first, content },
        _ => Event::Reply {
            id,
            answer: answer_of(place, u64::from(digit(size))),
        },
    }
}

fn add_word(log: &mut Log, word: &[u8]) -> Result<(), NoMemory> {
    match word {
        [kind, pass, call, place, a, b, ..] => {
            let id = CallId {
                pass: u32::from(digit(*pass)),
                call: u64::from(digit(*call)),
            };
            let both = [sector(*a), sector(*b)];
            let count = if *a == b'.' {
                0
            } else if *b == b'.' {
                1
            } else {
                2
            };
            add_event(log, event_of(*kind, id, *place, *a, &both[..count]))
        }
        _ => Err(NoMemory),
    }
}

fn log_of(alloc: Global, text: &str) -> Result<Log, NoMemory> {
    let room = Room {
        events: 32,
        sectors: 32,
    };
    let mut log = Log::new(alloc, room)?;
    for word in text.as_bytes().chunks(7) {
        add_word(&mut log, word)?;
    }
    Ok(log)
}

fn is_legal(alloc: Global, text: &str) -> Result<bool, NoMemory> {
    let zero = Sector::filled(0);
    let start = [zero, zero, zero, zero];
    let log = log_of(alloc, text)?;
    Ok(deciding::is_legal(&log, &List(&start)))
}

#[test]
fn legal_histories(rt: HostRuntime) -> Result<(), Fail> {
    let table = [
        "",
        // a write in two pieces, a flush and a read
        "W11012 I1101. D11... I1112. D11... =11o.. F12... =12o.. R1302. S13012 =13o..",
        // what a failed write left may be seen, or what stood there before
        "W1101. I1101. B11... =11s0. R1201. S1201.",
        "W1101. I1101. B11... =11s0. R1201. S1200.",
        // a look beside an open Issue on another sector
        "W1101. R2111. I1101. S2110. D11... =21o.. =11o..",
        "W1101. =11f..",
        "F11... =11w..",
        "R1102. S1100. =11b1.",
    ];
    for text in table {
        assert!(rt; is_legal(rt.alloc(), text)?, "{text}");
    }
    Ok(())
}

/// Histories that are legal up to their last event.
const ILLEGAL: [(&str, &str); 29] = [
    // 1: the first call isn't 1; the call before has no reply; the range passes the end; not asked; answered
    ("", "F12..."),
    ("F11... ", "F12..."),
    ("", "R1132."),
    ("", "W11312"),
    ("", "=11o.."),
    ("F11... =11o.. ", "=11o.."),
    // 2: not the next sector; not its content; too much; of the other kind; two at once; none to end; after a Broke
    ("W11012 ", "I1112."),
    ("W11012 ", "I1102."),
    ("W1101. ", "I11012"),
    ("R1101. ", "I1101."),
    ("W1101. ", "S1100."),
    ("W11012 I1101. ", "I1101."),
    ("W1101. ", "D11..."),
    ("W1101. ", "B11..."),
    ("W1101. I1101. B11... ", "I1101."),
    // 3: an open Issue of another call
    ("W1101. R2101. I1101. ", "S2101."),
    ("W11012 W2111. I11012 ", "I2111."),
    // 4: what couldn't be there
    ("R1101. ", "S1101."),
    ("W1101. I1101. D11... =11o.. R1201. ", "S1200."),
    // 5: an open Issue; not all done; all done; not broken; broken; the wrong kind; the wrong number
    ("W1101. I1101. ", "=11o.."),
    ("R1101. ", "=11o.."),
    ("R1101. S1100. ", "=11s1."),
    ("W1101. ", "=11s0."),
    ("W1101. I1101. B11... ", "=11b0."),
    ("R1101. ", "=11f.."),
    ("W1101. ", "=11w.."),
    ("F11... ", "=11b0."),
    ("F11... ", "=11s1."),
    ("W1101. ", "=11n.."),
];

#[test]
fn illegal_histories(rt: HostRuntime) -> Result<(), Fail> {
    for (before, last) in ILLEGAL {
        let all = format!(in rt.alloc(); "{before}{last}")?;
        assert!(rt; is_legal(rt.alloc(), before)?, "{before}");
        assert!(rt; !is_legal(rt.alloc(), all.as_str())?, "{all}");
    }
    Ok(())
}

/// What sector 0 could hold, and what a crash may leave there, among 0, 1 and 2.
#[test]
fn contents_of_a_sector(rt: HostRuntime) -> Result<(), Fail> {
    let zero = Sector::filled(0);
    let start = [zero, zero];
    let disk = List(&start);
    let text =
        "W1101. F21... I1101. D11... =21o.. =11o.. F22... W1202. I1202. =22o.. B12... =12s0.";
    let log = log_of(rt.alloc(), text)?;
    assert!(rt; deciding::is_legal(&log, &disk));
    // after how many events; which of 0, 1 and 2 could be there; which of them a crash may leave
    let table = [
        (0, [true, false, false], [true, false, false]),
        (3, [true, true, false], [true, true, false]),
        (4, [false, true, false], [true, true, false]),
        // the flush was asked before the write was done
        (5, [false, true, false], [true, true, false]),
        (9, [false, true, true], [true, true, true]),
        (10, [false, true, true], [false, true, true]),
        (12, [false, true, true], [false, true, true]),
    ];
    for (entries, could, may) in table {
        if entries <= log.len() {
            for (value, (can, left)) in could.iter().zip(may).enumerate() {
                let v = Sector::filled(value as u8);
                assert_eq!(rt;
                    deciding::could(&log, &disk, entries, 0, &v),
                    *can,
                    "could be {value} after {entries}"
                );
                assert_eq!(rt;
                    deciding::may(&log, &disk, entries, 0, &v),
                    left,
                    "may be {value} after {entries}"
                );
            }
        }
    }
    assert_eq!(rt; log.len(), 12);
    Ok(())
}
