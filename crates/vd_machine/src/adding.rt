//! Entries of the history, numbered by the store's events.

ghost use Rattle.std.specs.Prelude.{◌≡◌, ◌<◌, ◌^◌, ◌++◌, [], ◌∷◌, length};
ghost use Rattle.vd_law.specs.Entries.{entry_of};
ghost use Rattle.vd_law.specs.Logs.{content_of};
ghost use Rattle.vd_device.specs.Disks.{IsRunning};
ghost use Rattle.vd_machine.specs.Adding.{CanAdd, AddsEntries};

use vd_device::Store;
use vd_law::entry::{CallId, Event};
use vd_log::history::History;

pub(crate) fn call_id(pass: usize, call: u64) -> CallId
    requires { pass < 2 ^ 32 }
    ensures pass { result.pass ≡ pass }
    ensures call { result.call ≡ call }
{
    CallId {
        pass: pass as u32,
        call,
    }
}

/// Adds an entry with the number of events that the store has now.
pub(crate) fn add<S: Store>(store: &S, history: &mut History, event: Event<'_>)
    requires room { CanAdd (length (content_of (entry_of event))) history.old (S.events store.now) }
    ensures entry { history.new.log.entries ≡ history.old.log.entries ++ entry_of event.entry ∷ [] }
    ensures extends { AddsEntries (S.events store.now ∷ []) (length (content_of (entry_of event.entry))) history.old history.new }
    ensures running { S.tells store.now → IsRunning (S.events store.now) (S.disk store.now) }
{
    history.add(event, store.events());
}
