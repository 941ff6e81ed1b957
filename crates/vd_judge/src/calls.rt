//! What the events of a log say of one call.

ghost use Rattle.std.specs.Prelude.{◌≡◌, ℕ, ◌+◌, ◌*◌, ◌^◌, ◌<◌, ◌≤◌, length, take};
ghost use Rattle.vd_law.specs.Entries.{entry_of, same_call, Past, ◌▸◌, past};
ghost use Rattle.vd_law.specs.Calls.{progress, no_progress, progress_after as progress_with};
ghost use Rattle.vd_judge.specs.CallStates.{progress_of};

use vd_law::entry::{CallId, Event, Request, call_of};
use vd_log::log::Log;

pub fn is_same(a: CallId, b: CallId) -> bool
    ensures { result ≡ same_call a b }
{
    a.pass == b.pass && a.call == b.call
}

/// How far a call has come.
#[derive(Clone, Copy, Drop)]
pub struct CallState<'a> {
    pub asked: Option<Request<'a>>,
    pub done: u128,
    pub pending: u64,
    pub started: bool,
    pub broken: bool,
    pub answered: bool,
}

fn gone_on<'a>(state: CallState<'a>, event: Event<'a>) -> CallState<'a>
    requires { state.done + 2 ^ 64 < 2 ^ 128 }
    ensures state { progress_of result ≡ progress_with (progress_of state.entry) (entry_of event.entry) }
    ensures bound { result.done + result.pending ≤ state.entry.done + state.entry.pending + 2 ^ 64 }
{
    match event {
        Event::Ask { id: _, request } => CallState {
            asked: Some(request),
            ..state
        },
        Event::Issue {
            id: _,
            first: _,
            content,
        } => CallState {
            pending: content.len() as u64,
            started: true,
            ..state
        },
        Event::Done { id: _ } => CallState {
            done: state.done + u128::from(state.pending),
            pending: 0,
            ..state
        },
        Event::Broke { id: _ } => CallState {
            pending: 0,
            broken: true,
            ..state
        },
        Event::Seen {
            id: _,
            first: _,
            content,
        } => CallState {
            done: state.done + content.len() as u128,
            started: true,
            ..state
        },
        Event::Reply { id: _, answer: _ } => CallState {
            answered: true,
            ..state
        },
    }
}

fn with_event<'a>(state: CallState<'a>, event: Event<'a>, id: CallId) -> CallState<'a>
    requires { state.done + 2 ^ 64 < 2 ^ 128 }
    ensures state { (p : Past) → progress_of state.entry ≡ progress p id → progress_of result ≡ progress (p ▸ entry_of event.entry) id }
    ensures bound { result.done + result.pending ≤ state.entry.done + state.entry.pending + 2 ^ 64 }
{
    if is_same(call_of(event), id) {
        gone_on(state, event)
    } else {
        state
    }
}

/// How far the call has come after the first k events.
pub fn progress(log: &Log, k: u64, id: CallId) -> CallState<'_>
    requires { k ≤ length log.now.entries }
    ensures { progress_of result ≡ progress (past (take k log.now.entries)) id }
{
    let mut state = CallState {
        asked: None,
        done: 0,
        pending: 0,
        started: false,
        broken: false,
        answered: false,
    };
    for i in 0..k {
        state = with_event(state, log.event(i), id);
    }
    state
}
