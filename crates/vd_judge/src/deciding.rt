//! The plain deciders of a log: what a sector could hold, what a crash may leave there, and whether the log is legal.
//! They are slow, and take no memory.

ghost use Rattle.std.specs.Prelude.{◌≡◌, ℕ, ◌+◌, ◌<◌, ◌≤◌, ◌↔◌, IsTrue, List, length, take};
ghost use Rattle.std.specs.List.{Contains};
ghost use Rattle.vd_law.specs.Entries.{entry_of, past};
ghost use Rattle.vd_law.specs.Contents.{could, may};
ghost use Rattle.vd_law.specs.Rules.{IsLegal, MayFollow};

use crate::contents::{change_by, firm, found_after, search_start, search_with};
use crate::flat::Flat;
use crate::rules::{is_alone, is_answered, is_in_place, is_in_turn, is_shown};
use vd_law::entry::{Event, Sector, is_same_sector};
use vd_log::log::Log;

/// Whether the event keeps the rules after the first i events, which are legal.
fn may_follow<F: Flat>(log: &Log, start: &F, i: u64, event: Event<'_>) -> bool
    requires known { i ≤ length log.now.entries }
    requires legal { IsLegal (F.disk start.now) (take i log.now.entries) }
    ensures { IsTrue result ↔ MayFollow (F.disk start.now) (past (take i log.now.entries)) (entry_of event.entry) }
{
    let size = start.sectors();
    if !is_in_turn(log, i, event, size) {
        return false;
    }
    if !is_in_place(log, i, event) {
        return false;
    }
    is_alone(log, i, event, size) && is_shown(log, start, i, event) && is_answered(log, i, event)
}

/// Whether the sector could hold v after the first events.
pub fn could<F: Flat>(log: &Log, start: &F, entries: u64, s: u64, v: &Sector) -> bool
    requires entries { entries ≤ length log.now.entries }
    requires inside { s < length (F.disk start.now) }
    ensures { IsTrue result ↔ Contains (could (F.disk start.now) (take entries log.now.entries) s) v.now }
{
    let mut found = is_same_sector(&start.sector(s), v);
    for i in 0..entries {
        found = found_after(found, change_by(log, i, log.event(i), s), v);
    }
    found
}

/// Whether a crash after the first events may leave v in the sector.
pub fn may<F: Flat>(log: &Log, start: &F, entries: u64, s: u64, v: &Sector) -> bool
    requires entries { entries ≤ length log.now.entries }
    requires inside { s < length (F.disk start.now) }
    ensures { IsTrue result ↔ Contains (may (F.disk start.now) (take entries log.now.entries) s) v.now }
{
    let firm = firm(log, entries, s);
    let mut search = search_start(&start.sector(s), firm, v);
    for i in 0..entries {
        search = search_with(search, log.event(i), s, firm, v);
    }
    search.found
}

/// Whether the log is a legal history of the disk.
pub fn is_legal<F: Flat>(log: &Log, start: &F) -> bool
    ensures { IsTrue result ↔ IsLegal (F.disk start.now) log.now.entries }
{
    for i in 0..log.len() {
        if !may_follow(log, start, i, log.event(i)) {
            return false;
        }
    }
    true
}
