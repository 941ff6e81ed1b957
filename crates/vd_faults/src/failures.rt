//! Which rule fails a ticket of a store.

ghost use Rattle.std.specs.Prelude.{◌≡◌, ℕ, ◌+◌, ◌^◌, ◌<◌, ◌≤◌, length};
ghost use Rattle.vd_law.specs.Entries.{entry_of, Past, ◌▸◌, past};
ghost use Rattle.vd_law.specs.Contents.{issued_contents};
ghost use Rattle.vd_faults.specs.Rules.{failed_by, failing, fault_of};

use crate::rule::{Keep, Rule};
use crate::rules::{Rules, covers};
use vd_device::{Kind, Ticket};
use vd_law::entry::Event;
use vd_log::log::Log;

fn written_with(count: u64, event: Event<'_>, s: u64) -> u64
    requires { count + 1 < 2 ^ 64 }
    ensures count { (p : Past) → count ≡ length (issued_contents p s) → result ≡ length (issued_contents (p ▸ entry_of event.entry) s) }
    ensures bound { result ≤ count + 1 }
{
    match event {
        Event::Issue {
            id: _,
            first,
            content,
        } if first <= s && s - first < content.len() as u64 => count + 1,
        _ => count,
    }
}

/// How many writes the log has on the sector.
fn written(log: &Log, s: u64) -> u64
    ensures { result ≡ length (issued_contents (past log.now.entries) s) }
{
    let mut count = 0;
    for i in 0..log.len() {
        count = written_with(count, log.event(i), s);
    }
    count
}

fn failed_by(rule: Rule, ending: u64, log: &Log, ticket: &Ticket) -> Option<Keep>
    ensures { result ≡ failed_by ending log.now.entries ticket.now rule }
{
    match rule {
        Rule::FailNth { nth, keep } if nth == ending => Some(keep),
        Rule::FailAt { sector, nth, keep }
            if ticket.kind() == Kind::Write
                && covers(ticket, sector)
                && written(log, sector) == nth => { Some(keep) }
        _ => None,
    }
}

impl Rules {
    /// Whether a rule fails the ticket, the `ending`-th that ends, and what it leaves.
    pub fn fault(&self, ending: u64, log: &Log, ticket: &Ticket) -> Option<Keep>
        ensures { result ≡ fault_of ending log.now.entries ticket.now self.now }
    {
        if self.hold(ticket) {
            return Some(Keep::Old);
        }
        for rule in &self.list {
            let failed = failed_by(*rule, ending, log, ticket);
            if failed.is_some() {
                return failed;
            }
        }
        None
    }
}
