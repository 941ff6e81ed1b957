//! How a ticket of a store ends.

ghost use Rattle.std.specs.Prelude.{◌≡◌, ◌+◌, ◌≤◌, ◌<◌, ◌^◌, true, false, Some, None, length, slice_range, if◌then◌else◌};
ghost use Rattle.vd_law.specs.Entries.{entry_of};
ghost use Rattle.vd_law.specs.Logs.{IsShort};
ghost use Rattle.vd_device.specs.declared.ticket.Kind.TheVariants.{Read, Write, Flush};
ghost use Rattle.vd_device.specs.Tickets.{sectors_read};
ghost use Rattle.vd_device.specs.Calls.{failed_entry as failure, settled_of};
ghost use Rattle.vd_device.specs.declared.settled.Settled.TheVariants.{Done as IsDone, Failed as HasFailed};
ghost use Rattle.vd_faults.specs.Tapes.{takes, taped, content_at};
ghost use Rattle.vd_mem.specs.StoreState.{carried_out, last_entry, last_held, is_done};
ghost use Rattle.vd_mem.specs.Ends.{CanCarryOut};

use vd_device::{Kind, Settled, Ticket, Waited};
use vd_faults::{Keep, Tape};
use vd_law::entry::{Answer, CallId, Event, Sector};

/// The call of the ticket with this number, in a store's log.
pub fn call_of(number: u64) -> CallId
    ensures { result ≡ record { pass = 0; call = number } }
{
    CallId {
        pass: 0,
        call: number,
    }
}

fn failure(ticket: &Ticket) -> Event<'static>
    ensures entry { entry_of result ≡ failure ticket.now.kind ticket.now }
    ensures short { IsShort (entry_of result) }
{
    let id = call_of(ticket.number());
    match ticket.kind() {
        Kind::Write => Event::Broke { id },
        Kind::Read | Kind::Flush => Event::Reply {
            id,
            answer: Answer::StoreFault {
                ticket: ticket.number(),
                done: 0,
            },
        },
    }
}

/// Puts the content of a write into the sectors, as its Issue tells it.
fn carry_out(held: &mut Vec<Sector>, tape: &Tape, ticket: &Ticket)
    requires { CanCarryOut ticket.now.kind ticket.now tape.now.log.entries held.old.items }
    ensures { held.new.items ≡ carried_out ticket.now.kind ticket.now tape.now.log.entries held.old.items }
{
    if ticket.kind() == Kind::Write {
        let content = tape.content(ticket.mark());
        let from = ticket.first() as usize;
        held[from..from + content.len()].copy_from_slice(content);
    }
}

/// Ends a ticket that no rule fails, where the tape has room for it.
fn complete(held: &mut Vec<Sector>, tape: &mut Tape, ticket: &Ticket, out: &mut [Sector]) -> bool
    requires within { ticket.now.first + ticket.now.count ≤ length held.old.items }
    requires few { ticket.now.count ≤ 2048 }
    requires room { length out.old ≡ sectors_read ticket.now }
    requires placed { tape.old.over ≡ 0 → CanCarryOut ticket.now.kind ticket.now tape.old.log.entries held.old.items }
    ensures done { result ≡ takes tape.old.log tape.old.fuse tape.old.over (last_entry None ticket.now held.old.items) }
    ensures tape { tape.new ≡ taped (last_entry None ticket.now held.old.items) ticket.now.mark tape.old }
    ensures held { held.new.items ≡ (if result then last_held None ticket.now tape.old.log.entries held.old.items else held.old.items) }
    ensures read { result ≡ true → ticket.now.kind ≡ Read → out.new ≡ slice_range held.old.items ticket.now.first (ticket.now.first + ticket.now.count) }
    ensures unread { result ≡ false → out.new ≡ out.old }
    ensures short { length tape.new.log.entries < 2 ^ 63 }
{
    let id = call_of(ticket.number());
    let origin = ticket.mark();
    match ticket.kind() {
        Kind::Read => {
            let first = ticket.first();
            let content = &held[first as usize..(first + ticket.count()) as usize];
            if !tape.add(Event::Seen { id, first, content }, origin) {
                return false;
            }
            out.copy_from_slice(content);
            true
        }
        Kind::Write => {
            if !tape.add(Event::Done { id }, origin) {
                return false;
            }
            carry_out(held, tape, ticket);
            true
        }
        Kind::Flush => tape.add(
            Event::Reply {
                id,
                answer: Answer::Ok,
            },
            origin,
        ),
    }
}

/// Ends a ticket that a rule fails.
fn break_off(held: &mut Vec<Sector>, tape: &mut Tape, ticket: &Ticket, keep: Keep)
    requires placed { tape.old.over ≡ 0 → CanCarryOut ticket.now.kind ticket.now tape.old.log.entries held.old.items }
    ensures tape { tape.new ≡ taped (last_entry (Some keep) ticket.now held.old.items) ticket.now.mark tape.old }
    ensures held { held.new.items ≡ (if takes tape.old.log tape.old.fuse tape.old.over (last_entry (Some keep) ticket.now held.old.items)
        then last_held (Some keep) ticket.now tape.old.log.entries held.old.items else held.old.items) }
    ensures short { length tape.new.log.entries < 2 ^ 63 }
{
    let added = tape.add(failure(ticket), ticket.mark());
    if added && keep == Keep::New {
        carry_out(held, tape, ticket);
    }
}

/// Ends a ticket, and answers whether it is done.
pub fn end(
    held: &mut Vec<Sector>,
    tape: &mut Tape,
    ticket: &Ticket,
    fault: Option<Keep>,
    out: &mut [Sector],
) -> bool
    requires within { ticket.now.first + ticket.now.count ≤ length held.old.items }
    requires few { ticket.now.count ≤ 2048 }
    requires room { length out.old ≡ sectors_read ticket.now }
    requires placed { tape.old.over ≡ 0 → CanCarryOut ticket.now.kind ticket.now tape.old.log.entries held.old.items }
    ensures done { result ≡ is_done fault (takes tape.old.log tape.old.fuse tape.old.over (last_entry fault ticket.now held.old.items)) }
    ensures tape { tape.new ≡ taped (last_entry fault ticket.now held.old.items) ticket.now.mark tape.old }
    ensures held { held.new.items ≡ (if takes tape.old.log tape.old.fuse tape.old.over (last_entry fault ticket.now held.old.items)
        then last_held fault ticket.now tape.old.log.entries held.old.items else held.old.items) }
    ensures read { result ≡ true → ticket.now.kind ≡ Read → out.new ≡ slice_range held.old.items ticket.now.first (ticket.now.first + ticket.now.count) }
    ensures unread { result ≡ false → out.new ≡ out.old }
    ensures short { length tape.new.log.entries < 2 ^ 63 }
{
    match fault {
        None => complete(held, tape, ticket, out),
        Some(keep) => {
            break_off(held, tape, ticket, keep);
            false
        }
    }
}

/// What a wait answers.
pub fn answer(done: bool, number: u64) -> Waited
    ensures { settled_of result ≡ (if done then IsDone else HasFailed number) }
{
    if done {
        Waited::Done
    } else {
        Waited::Failed(number)
    }
}

/// What a settle answers that ended its ticket.
pub fn settled(waited: Waited) -> Settled
    ensures { result ≡ settled_of waited }
{
    match waited {
        Waited::Done => Settled::Done,
        Waited::Failed(number) => Settled::Failed(number),
    }
}
