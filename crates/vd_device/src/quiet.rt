//! Calls on a store that is at rest, which leave what it holds as it is.

ghost use Rattle.std.specs.Prelude.{◌≡◌, ◌++◌, [], length, OnOk, IfErr};
ghost use Rattle.vd_device.specs.Tickets.{IsRange};
ghost use Rattle.vd_device.specs.Calls.{next_number};
ghost use Rattle.vd_device.specs.Now.{flush_entries};
ghost use Rattle.vd_device.specs.Quiet.{sectors_from, IsReady, OnlyReads, IsStoreFault};

use crate::now::{flush_now, read_now};
use crate::store::Store;
use vd_law::entry::Sector;

/// The number of sectors of a store with nothing in flight, which is ready then: no write is open in its log.
pub fn sectors_at_rest<S: Store>(store: &S) -> u64
    requires idle { S.flight store.now [] }
    ensures value { result ≡ S.sectors store.now }
    ensures ready { IsReady S.Store store.now }
    ensures held { S.tells store.now → length (S.disk store.now).held ≡ result }
{
    let _depth = store.depth();
    let _events = store.events();
    let _flying = store.in_flight();
    store.sectors()
}

/// Makes durable what was written before, by one ticket. Nothing that is held changes. The error is the failed ticket's
/// number; where the store tells, that call ended in its log by a Reply that isn't Ok.
pub fn flush_only<S: Store>(store: &mut S) -> Result<(), u64>
    requires ready { IsReady S.Store store.old }
    ensures fault { IfErr result (IsStoreFault S.Store store.old store.new) }
    ensures number { S.last store.new ≡ next_number (S.last store.old) }
    ensures quiet { OnlyReads S.Store store.old store.new }
    ensures flushed { S.tells store.new → (S.disk store.new).log ≡ (S.disk store.old).log ++ flush_entries (S.last store.new) result }
{
    flush_now(store)
}

/// Reads the sectors from `first` on into `out`, at most 2,048, by one ticket. Nothing that is held changes. The error is
/// the failed ticket's number; where the store tells, that call ended in its log by a Reply that isn't Ok.
pub fn read_only<S: Store>(store: &mut S, first: u64, out: &mut [Sector]) -> Result<(), u64>
    requires ready { IsReady S.Store store.old }
    requires range { IsRange (S.sectors store.old) first (length out.old) }
    ensures fault { IfErr result (IsStoreFault S.Store store.old store.new) }
    ensures number { S.last store.new ≡ next_number (S.last store.old) }
    ensures quiet { OnlyReads S.Store store.old store.new }
    ensures size { length out.new ≡ length out.old }
    ensures read { OnOk result (S.tells store.new → out.new ≡ sectors_from (S.disk store.new).held first (length out.old)) }
{
    read_now(store, first, out)
}
