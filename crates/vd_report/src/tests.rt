//! What the texts are, by the formats' words and the worked rows.

ghost use Rattle.std.specs.Prelude.{◌≡◌, ◌+◌, ◌<◌, ◌≤◌, [], length};
ghost use Rattle.std.specs.List.{All};
ghost use Rattle.vd_law.specs.Entries.{entry_of};
ghost use Rattle.vd_law.specs.Logs.{content_of, IsShort};
ghost use Rattle.vd_law.specs.Histories.{last_number};
ghost use Rattle.vd_report.specs.Replies.{IsPrinted, HasText};

use crate::line::{About, Line, put_line, put_line_about};
use crate::replies::{put_answer, put_history};
use crate::sectors::{put_sector, put_show};
use crate::sum::put_sum;
use std::test::Fail;
use vd_io::mem_sink::MemSink;
use vd_law::entry::{Answer, CallId, Event, Request, Room, Sector};
use vd_log::history::History;

/// Appends an event at number 0.
fn note(history: &mut History, event: Event<'_>)
    requires events { 0 < history.old.log.left.events }
    requires sectors { length (content_of (entry_of event)) ≤ history.old.log.left.sectors }
    requires short { IsShort (entry_of event) }
    requires start { last_number history.old.opened history.old.numbers ≤ 0 }
    requires printed { All HasText history.old.log.entries }
    requires text { HasText (entry_of event) }
    ensures events { history.new.log.left.events + 1 ≡ history.old.log.left.events }
    ensures sectors { history.new.log.left.sectors + length (content_of (entry_of event.entry)) ≡ history.old.log.left.sectors }
    ensures start { last_number history.new.opened history.new.numbers ≤ 0 }
    ensures printed { All HasText history.new.log.entries }
{
    history.add(event, 0);
}

fn ask(pass: u32, call: u64) -> Event<'static>
    ensures content { content_of (entry_of result) ≡ [] }
    ensures text { HasText (entry_of result) }
{
    Event::Ask {
        id: CallId { pass, call },
        request: Request::Flush,
    }
}

fn reply(pass: u32, call: u64, answer: Answer) -> Event<'static>
    requires { IsPrinted answer }
    ensures content { content_of (entry_of result) ≡ [] }
    ensures text { HasText (entry_of result) }
{
    Event::Reply {
        id: CallId { pass, call },
        answer,
    }
}

fn seen(pass: u32, call: u64, content: &[Sector]) -> Event<'_>
    ensures content { content_of (entry_of result) ≡ content.now }
    ensures text { HasText (entry_of result) }
{
    Event::Seen {
        id: CallId { pass, call },
        first: 0,
        content,
    }
}

/// Two guests and a closing flush. A read that failed shows nothing, and what it has seen is shown by no later one.
#[test]
fn calls_guest_by_guest(rt: HostRuntime) -> Result<(), Fail> {
    let alloc = rt.alloc();
    let room = Room {
        events: 12,
        sectors: 4,
    };
    let mut history = History::new(alloc, room)?;
    note(&mut history, ask(2, 1));
    note(&mut history, ask(1, 1));
    note(&mut history, seen(1, 1, &[Sector::filled(0xaa)]));
    note(
        &mut history,
        reply(2, 1, Answer::StoreFault { ticket: 7, done: 0 }),
    );
    note(&mut history, seen(1, 1, &[Sector::filled(0x0b)]));
    note(&mut history, reply(1, 1, Answer::Ok));
    note(&mut history, ask(1, 2));
    note(&mut history, seen(1, 2, &[Sector::filled(0x10)]));
    note(
        &mut history,
        reply(1, 2, Answer::BaseFault { ticket: 1, done: 1 }),
    );
    note(&mut history, ask(1, 3));
    note(&mut history, reply(1, 3, Answer::Ok));
    note(
        &mut history,
        reply(
            0,
            1,
            Answer::Worn {
                generation: 9223372036854775807,
            },
        ),
    );
    let mut out = MemSink::new([0; 200].to_vec(alloc)?, Vec::new(alloc));
    assert!(rt; put_history(&mut out, &history, 2).is_ok());
    assert!(rt; put_sum(&mut out, &history, 2).is_ok());
    let text =
        "1.1 ok *aa *0b\n1.2 base fault 1 1\n1.3 ok\n2.1 store fault 7 0\nsum ok 2 full 0 fault 2 worn 0\n";
    assert_eq!(rt; out.bytes(), text.as_bytes());
    Ok(())
}

/// Each line, with numbers at their limits.
const LINES: [Line; 26] = [
    Line::BadWords,
    Line::NoMemory,
    Line::SourceFault,
    Line::NotBuilt,
    Line::PastTheDisk,
    Line::BadLine { number: 1 },
    Line::TooMuch { number: 129 },
    Line::LinePastTheDisk { number: 500000 },
    Line::NotImage,
    Line::Version { version: 9 },
    Line::BadField { field: 7 },
    Line::TooSmall {
        need: 104,
        have: 103,
    },
    Line::OldVersion,
    Line::BadEntry { chunk: 0, value: 4 },
    Line::DoubleChunk {
        first: 0,
        second: 1,
    },
    Line::BadBits { chunk: 3 },
    Line::BadRecord { slot: 2 },
    Line::Changed { field: 5 },
    Line::StoreFault {
        ticket: 18446744073709551615,
    },
    Line::BaseFault { ticket: 1 },
    Line::Made { need: 104 },
    Line::Tracked { new: 95 },
    Line::NotLess { tracked: 96 },
    Line::NotZero { sector: 95 },
    Line::Worn {
        generation: 9223372036854775807,
    },
    Line::Local { local: 1, of: 12 },
];

/// How they are told, the lines that are about something, and an answer.
const TEXT: &str =
    "bad words\nno memory\nsource fault\nnot built\npast the disk\nline 1: bad\nline 129: too much\n\
line 500000: past the disk\nnot image\nversion 9\nbad field 7\ntoo small 104 103\nold version\nbad entry 0 4\n\
double chunk 0 1\nbad bits 3\nbad record 2\nchanged 5\nstore fault 18446744073709551615\nbase fault 1\nmade 104\n\
tracked 95\nnot less 96\nnot zero 95\nworn 9223372036854775807\nlocal 1 of 12\nclose ok\nreopen not image\n\
show 95 base fault 3\nfull 1 0";

#[test]
fn lines_and_answers(rt: HostRuntime) -> Result<(), Fail> {
    let alloc = rt.alloc();
    let mut out = MemSink::new([0; 1000].to_vec(alloc)?, Vec::new(alloc));
    for line in LINES {
        assert!(rt; put_line(&mut out, line).is_ok());
    }
    assert!(rt; put_line_about(&mut out, About::Closing, Line::Ok).is_ok());
    assert!(rt; put_line_about(&mut out, About::Reopening, Line::NotImage).is_ok());
    assert!(rt;
        put_line_about(
            &mut out,
            About::Shown { first: 95 },
            Line::BaseFault { ticket: 3 }
        )
        .is_ok()
    );
    assert!(rt; put_answer(&mut out, &Answer::Full { needed: 1, free: 0 }).is_ok());
    assert_eq!(rt; out.bytes(), TEXT.as_bytes());
    Ok(())
}

/// A sector of one byte, and one of two. Each token goes out in one write, so that the third write is the first to fail.
#[test]
fn tokens_of_sectors(rt: HostRuntime) -> Result<(), Fail> {
    let alloc = rt.alloc();
    let mut out = MemSink::new([0; 1100].to_vec(alloc)?, [3].to_vec(alloc)?);
    let mut mixed = Sector::filled(0);
    mixed.bytes[511] = 0x5f;
    assert!(rt; put_sector(&mut out, &Sector::filled(0x5f)).is_ok());
    assert!(rt; put_sector(&mut out, &mixed).is_ok());
    assert!(rt; put_sector(&mut out, &mixed).is_err());
    assert!(rt; put_show(&mut out, 95, &[Sector::filled(0x5f), Sector::filled(0)]).is_ok());
    let bytes = out.bytes();
    assert_eq!(rt; bytes.len(), 1043);
    assert_eq!(rt; &bytes[..6], b"*5f000".as_slice());
    assert_eq!(rt; &bytes[1023..], b"005fshow 95 *5f *00\n".as_slice());
    Ok(())
}
