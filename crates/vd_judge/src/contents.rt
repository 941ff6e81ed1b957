//! What the events of a log say of one sector. These are slow and plain, and take no memory.

ghost use Rattle.std.specs.Prelude.{◌≡◌, ℕ, Some, slice_get, if◌then◌else◌, ◌+◌, ◌^◌, ◌<◌, ◌≤◌, ◌↔◌, IsTrue, false, List, length, take, is_some};
ghost use Rattle.std.specs.Option.{option_copied, option_map, option_to_list};
ghost use Rattle.std.specs.List.{list_any, Contains};
ghost use Rattle.vd_law.specs.Entries.{entry_of, same_call, Past, nothing, ◌▸◌, past};
ghost use Rattle.vd_law.specs.Calls.{before_ask};
ghost use Rattle.vd_law.specs.Contents.{sector_in, open_write, open_writes, is_of_another, last_done, firm_after};
ghost use Rattle.vd_judge.specs.ContentStates.{open_of, track_of, count_and_open, open_after_end, contents_after_change, IsChangeBy, MakesFirm, some_open, IsSearch};

use crate::calls::{is_same, progress};
use vd_law::entry::{Answer, CallId, Event, Request, Sector, call_of, is_same_sector};
use vd_log::log::Log;

/// An Issue on a sector that is open: whose it is, the how many-th on the sector, and its content there.
#[derive(Clone, Copy, Drop)]
pub struct OpenWrite<'a> {
    pub call: CallId,
    pub number: u64,
    pub content: &'a Sector,
}

/// How many Issues there were on a sector, and the one that a call has open.
#[derive(Clone, Copy, Drop)]
pub struct Track<'a> {
    pub written: u64,
    pub current: Option<OpenWrite<'a>>,
}

/// What an event makes of the contents that a sector may hold.
#[derive(Clone, Copy, Drop)]
pub enum Change<'a> {
    Same,
    More(&'a Sector),
    Only(&'a Sector),
}

/// What a content that begins at `first` has for sector s.
pub fn sector_in<'a>(first: u64, content: &'a [Sector], s: u64) -> Option<&'a Sector>
    ensures { option_copied result ≡ sector_in first content.now s }
{
    if first <= s {
        content.get((s - first) as usize)
    } else {
        None
    }
}

fn with_end<'a>(track: Track<'a>, call: CallId, id: CallId) -> Track<'a>
    ensures { track_of result ≡ open_after_end (same_call call id) (track_of track.entry) }
{
    if is_same(call, id) {
        Track {
            current: None,
            ..track
        }
    } else {
        track
    }
}

fn track_with<'a>(track: Track<'a>, event: Event<'a>, id: CallId, s: u64) -> Track<'a>
    requires { track.written + 1 < 2 ^ 64 }
    ensures track { (p : Past) → track_of track.entry ≡ count_and_open p id s → track_of result ≡ count_and_open (p ▸ entry_of event.entry) id s }
    ensures bound { result.written ≤ track.entry.written + 1 }
{
    match event {
        Event::Issue {
            id: call,
            first,
            content,
        } => match sector_in(first, content, s) {
            Some(v) => {
                let number = track.written + 1;
                let current = if is_same(call, id) {
                    Some(OpenWrite {
                        call,
                        number,
                        content: v,
                    })
                } else {
                    track.current
                };
                Track {
                    written: number,
                    current,
                }
            }
            None => track,
        },
        Event::Done { id: call } => with_end(track, call, id),
        Event::Broke { id: call } => with_end(track, call, id),
        _ => track,
    }
}

fn find_track(log: &Log, k: u64, id: CallId, s: u64) -> Track<'_>
    requires { k ≤ length log.now.entries }
    ensures { track_of result ≡ count_and_open (past (take k log.now.entries)) id s }
{
    let mut track = Track {
        written: 0,
        current: None,
    };
    for i in 0..k {
        track = track_with(track, log.event(i), id, s);
    }
    track
}

/// The Issue on sector s that the call has open after the first k events.
pub fn open_write(log: &Log, k: u64, id: CallId, s: u64) -> Option<OpenWrite<'_>>
    requires { k ≤ length log.now.entries }
    ensures { option_map open_of result ≡ open_write (past (take k log.now.entries)) id s }
{
    find_track(log, k, id, s).current
}

fn is_open_of_another(log: &Log, k: u64, event: Event<'_>, id: CallId, s: u64) -> bool
    requires { k ≤ length log.now.entries }
    ensures { (q : Past) → some_open (past (take k log.now.entries)) id s q ≡ false →
        result ≡ some_open (past (take k log.now.entries)) id s (q ▸ entry_of event.entry) }
{
    match event {
        Event::Issue {
            id: call,
            first,
            content,
        } => {
            sector_in(first, content, s).is_some()
                && !is_same(call, id)
                && open_write(log, k, call, s).is_some()
        }
        _ => false,
    }
}

/// Whether an Issue of another call on sector s is open after the first k events.
pub fn another_open(log: &Log, k: u64, id: CallId, s: u64) -> bool
    requires { k ≤ length log.now.entries }
    ensures { result ≡ list_any (is_of_another id) (open_writes (past (take k log.now.entries)) s) }
{
    for i in 0..k {
        if is_open_of_another(log, k, log.event(i), id, s) {
            return true;
        }
    }
    false
}

pub fn change_by<'a>(log: &'a Log, i: u64, event: Event<'a>, s: u64) -> Change<'a>
    requires { i ≤ length log.now.entries }
    ensures { IsChangeBy (past (take i log.now.entries)) (entry_of event.entry) s result }
{
    match event {
        Event::Issue {
            id: _,
            first,
            content,
        } => match sector_in(first, content, s) {
            Some(v) => Change::More(v),
            None => Change::Same,
        },
        Event::Done { id } => match open_write(log, i, id, s) {
            Some(w) => Change::Only(w.content),
            None => Change::Same,
        },
        Event::Seen { id, first, content } => match sector_in(first, content, s) {
            Some(v) => {
                if another_open(log, i, id, s) {
                    Change::Same
                } else {
                    Change::Only(v)
                }
            }
            None => Change::Same,
        },
        _ => Change::Same,
    }
}

/// Whether a sector is among the contents after a change, where `found` says whether it was before.
pub fn found_after(found: bool, change: Change<'_>, v: &Sector) -> bool
    ensures { (contents : List Sector) → (IsTrue found ↔ Contains contents v.now) →
        (IsTrue result ↔ Contains (contents_after_change change.entry contents) v.now) }
{
    match change {
        Change::Same => found,
        Change::More(w) => found || is_same_sector(w, v),
        Change::Only(w) => is_same_sector(w, v),
    }
}

fn done_with(log: &Log, i: u64, event: Event<'_>, s: u64, last: u64) -> u64
    requires { i ≤ length log.now.entries }
    ensures { last ≡ last_done (past (take i log.now.entries)) s → result ≡ last_done (past (take i log.now.entries) ▸ entry_of event.entry) s }
{
    match event {
        Event::Done { id } => match open_write(log, i, id, s) {
            Some(w) => last.max(w.number),
            None => last,
        },
        _ => last,
    }
}

/// The number of the last Issue on sector s that is done after the first k events, or 0.
fn last_done(log: &Log, k: u64, s: u64) -> u64
    requires { k ≤ length log.now.entries }
    ensures { result ≡ last_done (past (take k log.now.entries)) s }
{
    let mut last = 0;
    for i in 0..k {
        last = done_with(log, i, log.event(i), s, last);
    }
    last
}

fn is_ask_of(event: Event<'_>, id: CallId) -> bool
    ensures { (p : Past) → before_ask (p ▸ entry_of event.entry) id ≡ (if result then p else before_ask p id) }
{
    match event {
        Event::Ask {
            id: call,
            request: _,
        } => is_same(call, id),
        _ => false,
    }
}

/// How many of the first k events stand before the Ask of the call.
fn ask_place(log: &Log, k: u64, id: CallId) -> u64
    requires { k ≤ length log.now.entries }
    ensures within { result ≤ k }
    ensures before { past (take result log.now.entries) ≡ before_ask (past (take k log.now.entries)) id }
{
    let mut place = 0;
    for i in 0..k {
        if is_ask_of(log.event(i), id) {
            place = i;
        }
    }
    place
}

fn is_flushed(log: &Log, i: u64, event: Event<'_>) -> bool
    requires { i ≤ length log.now.entries }
    ensures { MakesFirm (past (take i log.now.entries)) (entry_of event.entry) result }
{
    match event {
        Event::Reply { id, answer } => match answer {
            Answer::Ok => matches!(progress(log, i, id).asked, Some(Request::Flush)),
            _ => false,
        },
        _ => false,
    }
}

fn firm_with(log: &Log, i: u64, event: Event<'_>, s: u64, firm: u64) -> u64
    requires { i ≤ length log.now.entries }
    ensures { firm ≡ firm_after (past (take i log.now.entries)) s → result ≡ firm_after (past (take i log.now.entries) ▸ entry_of event.entry) s }
{
    if is_flushed(log, i, event) {
        firm.max(last_done(log, ask_place(log, i, call_of(event)), s))
    } else {
        firm
    }
}

/// The number of the Issue on sector s that is firm after the first k events, or 0.
pub fn firm(log: &Log, k: u64, s: u64) -> u64
    requires { k ≤ length log.now.entries }
    ensures { result ≡ firm_after (past (take k log.now.entries)) s }
{
    let mut firm = 0;
    for i in 0..k {
        firm = firm_with(log, i, log.event(i), s, firm);
    }
    firm
}

/// How many Issues there were on a sector, and whether a content is among those from a number on.
#[derive(Clone, Copy, Drop)]
pub struct Search {
    pub number: u64,
    pub found: bool,
}

/// The search before the first event, where the sector has x at the start.
pub fn search_start(x: &Sector, firm: u64, v: &Sector) -> Search
    ensures search { (start : List Sector) (s : ℕ) → slice_get start s ≡ Some x.now → IsSearch start nothing s firm v.now result }
    ensures number { result.number ≡ 0 }
{
    Search {
        number: 0,
        found: firm == 0 && is_same_sector(x, v),
    }
}

pub fn search_with(search: Search, event: Event<'_>, s: u64, firm: u64, v: &Sector) -> Search
    requires { search.number + 1 < 2 ^ 64 }
    ensures search { (start : List Sector) (p : Past) → length (option_to_list (slice_get start s)) ≡ 1 →
        IsSearch start p s firm v.now search → IsSearch start (p ▸ entry_of event.entry) s firm v.now result }
    ensures bound { result.number ≤ search.number + 1 }
{
    match event {
        Event::Issue {
            id: _,
            first,
            content,
        } => match sector_in(first, content, s) {
            Some(w) => {
                let number = search.number + 1;
                let found = search.found || (firm <= number && is_same_sector(w, v));
                Search { number, found }
            }
            None => search,
        },
        _ => search,
    }
}
