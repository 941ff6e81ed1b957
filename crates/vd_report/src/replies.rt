//! The lines of a run's calls: for each guest its calls with their answers, and what was read.

ghost use Rattle.std.specs.Prelude.{◌≡◌, ◌+◌, ◌<◌, ◌≤◌, ◌++◌, length, take, slice_range, slice_get, Some, OnErr, if◌then◌else◌, [], ℕ};
ghost use Rattle.std.specs.List.{All, flat_map};
ghost use Rattle.vd_law.specs.Entries.{Entry, entry_of, past};
ghost use Rattle.vd_io.specs.Streams.{WritesText};
ghost use Rattle.vd_report.specs.Tokens.{tokens};
ghost use Rattle.vd_report.specs.Replies.{IsPrinted, HasText, answer_text, head_text, seen_in, seen_since_ask, seen_text, call_text, reply_text, guest_text, history_text};
ghost use Rattle.vd_report.specs.LastAsks.{asked_next};
ghost use Rattle.vd_law.specs.Counts.{Rose};

use crate::sectors::put_tokens;
use crate::text::{Text, push_number, push_phrase, push_word};
use vd_io::Failed;
use vd_io::sink::Sink;
use vd_law::entry::{Answer, CallId, Event};
use vd_log::history::History;
use vd_log::log::Log;

fn push_answer(text: &mut Text, answer: Answer)
    requires room { length text.old.items + 53 ≤ 128 }
    requires printed { IsPrinted answer }
    ensures items { text.new.items ≡ text.old.items ++ answer_text answer }
    ensures longer { length text.new.items ≤ length text.old.items + 53 }
{
    match answer {
        Answer::Ok => push_word(text, b"ok"),
        Answer::Full { needed, free } => push_phrase(text, b"full", &[needed, free]),
        Answer::StoreFault { ticket, done } => push_phrase(text, b"store fault", &[ticket, done]),
        Answer::BaseFault { ticket, done } => push_phrase(text, b"base fault", &[ticket, done]),
        Answer::NoRoom {
            events: _,
            sectors: _,
        } => unreachable!(),
        Answer::Worn { generation } => push_phrase(text, b"worn", &[generation]),
    }
}

/// Writes an answer in one write: `ok`, `full NEEDED FREE`, `store fault TICKET DONE`, `base fault TICKET DONE` or
/// `worn GENERATION`. After Failed a front of it is written. NoRoom is never printed.
pub fn put_answer<O: Sink>(out: &mut O, answer: &Answer) -> Result<(), Failed>
    requires { IsPrinted answer.now }
    ensures told_before { O.tells out.new → O.tells out.old }
    ensures writes { O.tells out.new → WritesText (answer_text answer.now) result (O.written out.old) (O.written out.new) }
    ensures no_fewer_faults { O.faults out.old ≤ O.faults out.new }
    ensures cause { OnErr result (Rose (O.faults out.old) (O.faults out.new)) }
{
    let mut text = Text::new();
    push_answer(&mut text, *answer);
    out.write(text.as_slice())
}

/// Writes a call's number and its answer in one write.
fn put_head<O: Sink>(out: &mut O, id: CallId, answer: Answer) -> Result<(), Failed>
    requires { IsPrinted answer }
    ensures told_before { O.tells out.new → O.tells out.old }
    ensures writes { O.tells out.new → WritesText (head_text id answer) result (O.written out.old) (O.written out.new) }
    ensures no_fewer_faults { O.faults out.old ≤ O.faults out.new }
    ensures cause { OnErr result (Rose (O.faults out.old) (O.faults out.new)) }
{
    let mut text = Text::new();
    push_number(&mut text, id.pass.into());
    push_word(&mut text, b".");
    push_number(&mut text, id.call);
    push_word(&mut text, b" ");
    push_answer(&mut text, answer);
    out.write(text.as_slice())
}

/// Writes what an entry shows the guest.
fn put_seen_at<O: Sink>(out: &mut O, log: &Log, at: u64, guest: u32) -> Result<(), Failed>
    requires { at < length log.now.entries }
    ensures told_before { O.tells out.new → O.tells out.old }
    ensures writes { O.tells out.new → (e : Entry) → slice_get log.now.entries at ≡ Some e →
        WritesText (tokens (seen_in guest e)) result (O.written out.old) (O.written out.new) }
    ensures no_fewer_faults { O.faults out.old ≤ O.faults out.new }
    ensures cause { OnErr result (Rose (O.faults out.old) (O.faults out.new)) }
{
    match log.event(at) {
        Event::Seen {
            id,
            first: _,
            content,
        } if id.pass == guest => put_tokens(out, content),
        _ => Ok(()),
    }
}

/// Writes what the entries from one to another show the guest.
fn put_seen<O: Sink>(out: &mut O, log: &Log, from: u64, to: u64, guest: u32) -> Result<(), Failed>
    requires range { from ≤ to }
    requires inside { to ≤ length log.now.entries }
    ensures told_before { O.tells out.new → O.tells out.old }
    ensures writes { O.tells out.new →
        WritesText (tokens (flat_map (seen_in guest) (slice_range log.now.entries from to))) result (O.written out.old) (O.written out.new) }
    ensures no_fewer_faults { O.faults out.old ≤ O.faults out.new }
    ensures cause { OnErr result (Rose (O.faults out.old) (O.faults out.new)) }
{
    for at in from..to {
        put_seen_at(out, log, at, guest)?;
    }
    Ok(())
}

/// Writes what a call has seen, where it is answered Ok.
fn put_seen_after<O: Sink>(
    out: &mut O,
    answer: Answer,
    log: &Log,
    from: u64,
    to: u64,
    guest: u32,
) -> Result<(), Failed>
    requires range { from ≤ to }
    requires inside { to ≤ length log.now.entries }
    ensures told_before { O.tells out.new → O.tells out.old }
    ensures writes { O.tells out.new →
        WritesText (seen_text answer (flat_map (seen_in guest) (slice_range log.now.entries from to))) result (O.written out.old) (O.written out.new) }
    ensures no_fewer_faults { O.faults out.old ≤ O.faults out.new }
    ensures cause { OnErr result (Rose (O.faults out.old) (O.faults out.new)) }
{
    match answer {
        Answer::Ok => put_seen(out, log, from, to, guest),
        _ => Ok(()),
    }
}

/// Writes the line of a call, which has seen what the entries from one to another show.
fn put_call<O: Sink>(
    out: &mut O,
    id: CallId,
    answer: Answer,
    log: &Log,
    from: u64,
    to: u64,
) -> Result<(), Failed>
    requires printed { IsPrinted answer }
    requires range { from ≤ to }
    requires inside { to ≤ length log.now.entries }
    ensures told_before { O.tells out.new → O.tells out.old }
    ensures writes { O.tells out.new →
        WritesText (call_text id answer (flat_map (seen_in id.pass) (slice_range log.now.entries from to))) result (O.written out.old) (O.written out.new) }
    ensures no_fewer_faults { O.faults out.old ≤ O.faults out.new }
    ensures cause { OnErr result (Rose (O.faults out.old) (O.faults out.new)) }
{
    put_head(out, id, answer)?;
    put_seen_after(out, answer, log, from, to, id.pass)?;
    out.write(b"\n")
}

/// Writes the line of an entry where it is a reply to the guest, whose last call's entries begin at `asked`.
fn put_reply<O: Sink>(out: &mut O, log: &Log, asked: u64, at: u64, guest: u32) -> Result<(), Failed>
    requires range { asked ≤ at }
    requires inside { at < length log.now.entries }
    requires printed { All HasText log.now.entries }
    requires seen { flat_map (seen_in guest) (slice_range log.now.entries asked at) ≡ seen_since_ask (past (take at log.now.entries)) guest }
    ensures told_before { O.tells out.new → O.tells out.old }
    ensures writes { O.tells out.new → (e : Entry) → slice_get log.now.entries at ≡ Some e →
        WritesText (reply_text (past (take at log.now.entries)) e guest) result (O.written out.old) (O.written out.new) }
    ensures no_fewer_faults { O.faults out.old ≤ O.faults out.new }
    ensures cause { OnErr result (Rose (O.faults out.old) (O.faults out.new)) }
{
    match log.event(at) {
        Event::Reply { id, answer } if id.pass == guest => put_call(
            out, id, answer, log, asked, at,
        ),
        _ => Ok(()),
    }
}

/// Where the entries of the guest's last call begin, after the entry at this place too.
fn asked_after(log: &Log, asked: u64, at: u64, guest: u32) -> u64
    requires range { asked ≤ at }
    requires inside { at < length log.now.entries }
    ensures next { (e : Entry) → slice_get log.now.entries at ≡ Some e → result ≡ asked_next e guest asked at }
    ensures range { result ≤ at }
{
    match log.event(at) {
        Event::Ask { id, request: _ } if id.pass == guest => at,
        _ => asked,
    }
}

/// Writes the lines of a guest's calls.
fn put_guest<O: Sink>(out: &mut O, log: &Log, guest: u32) -> Result<(), Failed>
    requires { All HasText log.now.entries }
    ensures told_before { O.tells out.new → O.tells out.old }
    ensures writes { O.tells out.new → WritesText (guest_text (past log.now.entries) guest) result (O.written out.old) (O.written out.new) }
    ensures no_fewer_faults { O.faults out.old ≤ O.faults out.new }
    ensures cause { OnErr result (Rose (O.faults out.old) (O.faults out.new)) }
{
    let mut asked = 0;
    for at in 0..log.len() {
        put_reply(out, log, asked, at, guest)?;
        asked = asked_after(log, asked, at, guest);
    }
    Ok(())
}

/// Writes the lines of the calls of guests 1 to `guests`, guest by guest and each guest's in order: `G.C` and the answer,
/// and after an Ok a token for each sector that the call has seen. After Failed a front of them is written.
pub fn put_history<O: Sink>(out: &mut O, history: &History, guests: u32) -> Result<(), Failed>
    requires { All HasText history.now.log.entries }
    ensures told_before { O.tells out.new → O.tells out.old }
    ensures writes { O.tells out.new → WritesText (history_text guests history.now.log.entries) result (O.written out.old) (O.written out.new) }
    ensures no_fewer_faults { O.faults out.old ≤ O.faults out.new }
    ensures cause { OnErr result (Rose (O.faults out.old) (O.faults out.new)) }
{
    for before in 0..guests {
        put_guest(out, history.log(), before + 1)?;
    }
    Ok(())
}
