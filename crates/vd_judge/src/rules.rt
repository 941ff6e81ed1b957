//! Whether one event keeps the rules after the events before it.

ghost use Rattle.std.specs.Prelude.{◌≡◌, ℕ, ◌+◌, ◌^◌, ◌<◌, ◌≤◌, ◌↔◌, IsTrue, List, Some, length, take};
ghost use Rattle.std.specs.List.{Contains};
ghost use Rattle.vd_law.specs.Entries.{entry_of, asked_of, past};
ghost use Rattle.vd_law.specs.Contents.{sector_in, could_after};
ghost use Rattle.vd_judge.specs.CallStates.{progress_of};
ghost use Rattle.vd_law.specs.Rules.{IsInside, IsNextCall, IsUnderWay, IsInTurn, IsNextPiece, IsNextWrite, LiesInside, IssueFits, SeenFits, IsInPlace, IsUntouched, IsAlone, IsShown, is_ok, is_store_fault, OkWhereAllDone, StoreFaultWhereBroken, IsAnswerTo, IsReply, ReplyFits, IsAnswered};

use crate::calls::{CallState, progress};
use crate::contents::another_open;
use crate::deciding::could;
use crate::flat::Flat;
use vd_law::entry::{Answer, CallId, Event, Request, Sector, is_same_content};
use vd_log::calls::last_call;
use vd_log::log::Log;

fn is_range_inside(size: u64, first: u64, count: u64) -> bool
    ensures { IsTrue result ↔ (first + count ≤ size) }
{
    first <= size && count <= size - first
}

fn is_inside(size: u64, request: Request<'_>) -> bool
    ensures { IsTrue result ↔ IsInside size (asked_of request.entry) }
{
    match request {
        Request::Read { first, count } => is_range_inside(size, first, count),
        Request::Write { first, content } => is_range_inside(size, first, content.len() as u64),
        Request::Flush => true,
    }
}

fn is_next_call(log: &Log, i: u64, id: CallId) -> bool
    requires { i ≤ length log.now.entries }
    ensures { IsTrue result ↔ IsNextCall (past (take i log.now.entries)) id }
{
    let last = last_call(log, i, id.pass);
    let before = CallId {
        pass: id.pass,
        call: last,
    };
    id.call > 0 && id.call - 1 == last && (last == 0 || progress(log, i, before).answered)
}

fn is_under_way(state: &CallState<'_>) -> bool
    ensures { IsTrue result ↔ IsUnderWay (progress_of state.now) }
{
    state.asked.is_some() && !state.answered
}

/// Whether the event stands in turn.
pub fn is_in_turn(log: &Log, i: u64, event: Event<'_>, size: u64) -> bool
    requires { i ≤ length log.now.entries }
    ensures { IsTrue result ↔ IsInTurn size (past (take i log.now.entries)) (entry_of event.entry) }
{
    match event {
        Event::Ask { id, request } => is_next_call(log, i, id) && is_inside(size, request),
        Event::Issue {
            id,
            first: _,
            content: _,
        } => is_under_way(&progress(log, i, id)),
        Event::Done { id } => is_under_way(&progress(log, i, id)),
        Event::Broke { id } => is_under_way(&progress(log, i, id)),
        Event::Seen {
            id,
            first: _,
            content: _,
        } => is_under_way(&progress(log, i, id)),
        Event::Reply { id, answer: _ } => is_under_way(&progress(log, i, id)),
    }
}

fn is_next_piece(begin: u64, count: u64, state: &CallState<'_>, first: u64, size: u64) -> bool
    ensures { IsTrue result ↔ IsNextPiece begin count (progress_of state.now) first size }
{
    first >= begin
        && u128::from(first - begin) == state.done
        && size > 0
        && state.done <= u128::from(count)
        && u128::from(size) <= u128::from(count) - state.done
}

fn is_ok(answer: Answer) -> bool
    ensures { result ≡ is_ok answer }
{
    matches!(answer, Answer::Ok)
}

fn is_store_fault(answer: Answer) -> bool
    ensures { result ≡ is_store_fault answer }
{
    matches!(answer, Answer::StoreFault { ticket: _, done: _ })
}

fn is_ok_where_all_done(request: Request<'_>, state: &CallState<'_>, answer: Answer) -> bool
    ensures { IsTrue result ↔ OkWhereAllDone (asked_of request.entry) (progress_of state.now) answer }
{
    match request {
        Request::Read { first: _, count } => is_ok(answer) == (state.done == u128::from(count)),
        Request::Write { first: _, content } => {
            is_ok(answer) == (state.done == content.len() as u128)
        }
        Request::Flush => true,
    }
}

fn is_store_fault_where_broken(request: Request<'_>, state: &CallState<'_>, answer: Answer) -> bool
    ensures { IsTrue result ↔ StoreFaultWhereBroken (asked_of request.entry) (progress_of state.now) answer }
{
    match request {
        Request::Read { first: _, count: _ } => true,
        Request::Write {
            first: _,
            content: _,
        } => is_store_fault(answer) == state.broken,
        Request::Flush => true,
    }
}

fn is_answer_to(request: Request<'_>, state: &CallState<'_>, answer: Answer) -> bool
    ensures { IsTrue result ↔ IsAnswerTo (asked_of request.entry) (progress_of state.now) answer }
{
    match answer {
        Answer::Ok => true,
        Answer::Full { needed: _, free: _ } => match request {
            Request::Read { first: _, count: _ } => false,
            Request::Write {
                first: _,
                content: _,
            } => !state.started,
            Request::Flush => false,
        },
        Answer::StoreFault { ticket: _, done } => u128::from(done) == state.done,
        Answer::BaseFault { ticket: _, done } => match request {
            Request::Read { first: _, count: _ } => u128::from(done) == state.done,
            Request::Write {
                first: _,
                content: _,
            } => u128::from(done) == state.done,
            Request::Flush => false,
        },
        Answer::NoRoom {
            events: _,
            sectors: _,
        } => false,
        Answer::Worn { generation: _ } => match request {
            Request::Read { first: _, count: _ } => false,
            Request::Write {
                first: _,
                content: _,
            } => false,
            Request::Flush => !state.started,
        },
    }
}

fn is_reply(request: Request<'_>, state: &CallState<'_>, answer: Answer) -> bool
    ensures { IsTrue result ↔ IsReply (asked_of request.entry) (progress_of state.now) answer }
{
    state.pending == 0
        && is_ok_where_all_done(request, state, answer)
        && is_store_fault_where_broken(request, state, answer)
        && is_answer_to(request, state, answer)
}

fn is_next_write(
    begin: u64,
    whole: &[Sector],
    state: &CallState<'_>,
    first: u64,
    content: &[Sector],
) -> bool
    ensures { IsTrue result ↔ IsNextWrite begin whole.now (progress_of state.now) first content.now }
{
    is_next_piece(
        begin,
        whole.len() as u64,
        state,
        first,
        content.len() as u64,
    ) && is_same_content(
        content,
        &whole[state.done as usize..state.done as usize + content.len()],
    ) && state.pending == 0
        && !state.broken
}

fn issue_fits(state: &CallState<'_>, first: u64, content: &[Sector]) -> bool
    ensures { IsTrue result ↔ IssueFits (progress_of state.now).asked (progress_of state.now) first content.now }
{
    match state.asked {
        None => false,
        Some(Request::Read { first: _, count: _ }) => false,
        Some(
            Request::Write {
                first: begin,
                content: whole,
            },
        ) => { is_next_write(begin, whole, state, first, content) }
        Some(Request::Flush) => false,
    }
}

fn seen_fits(state: &CallState<'_>, first: u64, size: u64) -> bool
    ensures { (content : List Sector) → length content ≡ size → (IsTrue result ↔ SeenFits (progress_of state.now).asked (progress_of state.now) first content) }
{
    match state.asked {
        None => false,
        Some(
            Request::Read {
                first: begin,
                count,
            },
        ) => is_next_piece(begin, count, state, first, size),
        Some(
            Request::Write {
                first: _,
                content: _,
            },
        ) => false,
        Some(Request::Flush) => false,
    }
}

/// Whether the event takes the next sectors of its request.
pub fn is_in_place(log: &Log, i: u64, event: Event<'_>) -> bool
    requires { i ≤ length log.now.entries }
    ensures { IsTrue result ↔ IsInPlace (past (take i log.now.entries)) (entry_of event.entry) }
{
    match event {
        Event::Ask { id: _, request: _ } => true,
        Event::Issue { id, first, content } => issue_fits(&progress(log, i, id), first, content),
        Event::Done { id } => progress(log, i, id).pending > 0,
        Event::Broke { id } => progress(log, i, id).pending > 0,
        Event::Seen { id, first, content } => {
            seen_fits(&progress(log, i, id), first, content.len() as u64)
        }
        Event::Reply { id: _, answer: _ } => true,
    }
}

fn is_untouched(log: &Log, i: u64, id: CallId, first: u64, size: u64) -> bool
    requires known { i ≤ length log.now.entries }
    requires inside { first + size < 2 ^ 64 }
    ensures { IsTrue result ↔ IsUntouched (past (take i log.now.entries)) id first size }
{
    for s in first..first + size {
        if another_open(log, i, id, s) {
            return false;
        }
    }
    true
}

/// Whether the event touches no open Issue of another call.
pub fn is_alone(log: &Log, i: u64, event: Event<'_>, size: u64) -> bool
    requires known { i ≤ length log.now.entries }
    requires inside { LiesInside size (entry_of event) }
    ensures { IsTrue result ↔ IsAlone (past (take i log.now.entries)) (entry_of event.entry) }
{
    match event {
        Event::Ask { id: _, request: _ } => true,
        Event::Issue { id, first, content } => is_untouched(
            log,
            i,
            id,
            first,
            content.len() as u64,
        ),
        Event::Done { id: _ } => true,
        Event::Broke { id: _ } => true,
        Event::Seen { id, first, content } => is_untouched(log, i, id, first, content.len() as u64),
        Event::Reply { id: _, answer: _ } => true,
    }
}

fn could_all<F: Flat>(log: &Log, start: &F, i: u64, first: u64, content: &[Sector]) -> bool
    requires known { i ≤ length log.now.entries }
    requires inside { first + length content.now ≤ length (F.disk start.now) }
    ensures { IsTrue result ↔ ((s : ℕ) (v : Sector) → sector_in first content.now s ≡ Some v →
        Contains (could_after (F.disk start.now) (past (take i log.now.entries)) s) v) }
{
    let _size = start.sectors();
    for k in 0..content.len() {
        let v = content[k];
        if !could(log, start, i, first + k as u64, &v) {
            return false;
        }
    }
    true
}

/// Whether the event shows only what could be there.
pub fn is_shown<F: Flat>(log: &Log, start: &F, i: u64, event: Event<'_>) -> bool
    requires known { i ≤ length log.now.entries }
    requires inside { LiesInside (length (F.disk start.now)) (entry_of event) }
    ensures { IsTrue result ↔ IsShown (F.disk start.now) (past (take i log.now.entries)) (entry_of event.entry) }
{
    match event {
        Event::Ask { id: _, request: _ } => true,
        Event::Issue {
            id: _,
            first: _,
            content: _,
        } => true,
        Event::Done { id: _ } => true,
        Event::Broke { id: _ } => true,
        Event::Seen {
            id: _,
            first,
            content,
        } => could_all(log, start, i, first, content),
        Event::Reply { id: _, answer: _ } => true,
    }
}

fn reply_fits(state: &CallState<'_>, answer: Answer) -> bool
    ensures { IsTrue result ↔ ReplyFits (progress_of state.now).asked (progress_of state.now) answer }
{
    match state.asked {
        None => false,
        Some(request) => is_reply(request, state, answer),
    }
}

/// Whether a Reply answers its call.
pub fn is_answered(log: &Log, i: u64, event: Event<'_>) -> bool
    requires { i ≤ length log.now.entries }
    ensures { IsTrue result ↔ IsAnswered (past (take i log.now.entries)) (entry_of event.entry) }
{
    match event {
        Event::Ask { id: _, request: _ } => true,
        Event::Issue {
            id: _,
            first: _,
            content: _,
        } => true,
        Event::Done { id: _ } => true,
        Event::Broke { id: _ } => true,
        Event::Seen {
            id: _,
            first: _,
            content: _,
        } => true,
        Event::Reply { id, answer } => reply_fits(&progress(log, i, id), answer),
    }
}
