//! Calls that submit and wait.

ghost use Rattle.std.specs.Prelude.{◌≡◌, List, length, OnOk, OnErr};
ghost use Rattle.vd_device.specs.Tickets.{IsRange, HasPlace, IsFree};
ghost use Rattle.vd_device.specs.Disks.{GrowsBy};
ghost use Rattle.vd_device.specs.Calls.{IsHeld};
ghost use Rattle.vd_device.specs.Now.{read_entries, write_entries, flush_entries, WritesBy};
ghost use Rattle.vd_device.specs.Stores.{CallsStore};
ghost use Rattle.vd_device.specs.Bases.{CallsBase};

use crate::base::Base;
use crate::settled::Waited;
use crate::store::Store;
use vd_law::entry::Sector;

/// Reads the sectors from `first` on into `out`. The error is the ticket's number.
pub fn read_now<S: Store>(store: &mut S, first: u64, out: &mut [Sector]) -> Result<(), u64>
    requires range { IsRange (S.sectors store.old) first (length out.old) }
    requires free { IsFree (S.flight store.old) (S.depth store.old) first (length out.old) }
    ensures calls { CallsStore S.Store (read_entries (S.last store.new) first (length out.old) out.new result) result store.old store.new }
    ensures told { S.tells store.new → GrowsBy (read_entries (S.last store.new) first (length out.old) out.new result) (S.disk store.old) (S.disk store.new) }
    ensures unread { OnErr result (out.new ≡ out.old) }
    ensures read { OnOk result (S.tells store.new → IsHeld first out.new (S.disk store.new).held) }
{
    let ticket = store.submit_read(first, out.len() as u64);
    match store.wait(ticket, out) {
        Waited::Done => Ok(()),
        Waited::Failed(number) => Err(number),
    }
}

/// Writes `content` to the sectors from `first` on. The error is the ticket's number.
pub fn write_now<S: Store>(store: &mut S, first: u64, content: &[Sector]) -> Result<(), u64>
    requires range { IsRange (S.sectors store.old) first (length content.now) }
    requires free { IsFree (S.flight store.old) (S.depth store.old) first (length content.now) }
    ensures calls { CallsStore S.Store (write_entries (S.last store.new) first content.now result) result store.old store.new }
    ensures told { S.tells store.new → WritesBy (write_entries (S.last store.new) first content.now result) first (length content.now)
        (S.disk store.old) (S.disk store.new) }
{
    let ticket = store.submit_write(first, content);
    match store.wait(ticket, &mut []) {
        Waited::Done => Ok(()),
        Waited::Failed(number) => Err(number),
    }
}

/// Makes durable what was written before. The error is the ticket's number.
pub fn flush_now<S: Store>(store: &mut S) -> Result<(), u64>
    requires place { HasPlace (S.flight store.old) (S.depth store.old) }
    ensures calls { CallsStore S.Store (flush_entries (S.last store.new) result) result store.old store.new }
    ensures told { S.tells store.new → GrowsBy (flush_entries (S.last store.new) result) (S.disk store.old) (S.disk store.new) }
{
    let ticket = store.submit_flush();
    match store.wait(ticket, &mut []) {
        Waited::Done => Ok(()),
        Waited::Failed(number) => Err(number),
    }
}

/// Reads the base's sectors from `first` on into `out`. The error is the ticket's number.
pub fn read_base<B: Base>(base: &mut B, first: u64, out: &mut [Sector]) -> Result<(), u64>
    requires range { IsRange (B.sectors base.old) first (length out.old) }
    requires free { IsFree (B.flight base.old) (B.depth base.old) first (length out.old) }
    ensures calls { CallsBase B.Base result base.old base.new }
    ensures unread { OnErr result (out.new ≡ out.old) }
    ensures read { OnOk result (B.tells base.new → IsHeld first out.new (B.content base.new)) }
{
    let ticket = base.submit_read(first, out.len() as u64);
    match base.wait(ticket, out) {
        Waited::Done => Ok(()),
        Waited::Failed(number) => Err(number),
    }
}
