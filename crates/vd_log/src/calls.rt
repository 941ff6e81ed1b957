//! How many calls a pass has asked.

ghost use Rattle.std.specs.Prelude.{◌≡◌, ◌+◌, ◌≤◌, length, take};
ghost use Rattle.vd_law.specs.Entries.{entry_of, Past, ◌▸◌, past};
ghost use Rattle.vd_law.specs.Calls.{last_call};

use crate::log::Log;
use vd_law::entry::Event;

fn last_with(last: u64, event: Event<'_>, pass: u32) -> u64
    ensures { (p : Past) → last ≡ last_call p pass → result ≡ last_call (p ▸ entry_of event.entry) pass }
{
    match event {
        Event::Ask { id, request: _ } => { if id.pass == pass { id.call } else { last } }
        _ => last,
    }
}

/// The number of the last call that the pass asked among the first k events, or 0.
pub fn last_call(log: &Log, k: u64, pass: u32) -> u64
    requires { k ≤ length log.now.entries }
    ensures { result ≡ last_call (past (take k log.now.entries)) pass }
{
    let mut last = 0;
    for i in 0..k {
        last = last_with(last, log.event(i), pass);
    }
    last
}
