//! A store: sectors that are read and written, and a flush that makes what is done durable.

ghost use Rattle.std.specs.Prelude.{◌≡◌, ◌+◌, ◌-◌, ◌*◌, ◌^◌, ◌<◌, ◌≤◌, ℕ, List, [], ◌∷◌, length};
ghost use Rattle.vd_device.specs.declared.ticket.Ticket.{Ticket as AnyTicket};
ghost use Rattle.vd_device.specs.declared.ticket.Kind.TheVariants.{Read, Write, Flush};
ghost use Rattle.vd_device.specs.Tickets.{IsRange, HasPlace, IsFree, IsInFlight, Puts, IsTicket, sectors_read};
ghost use Rattle.vd_device.specs.Disks.{Disk, AreWrites, HasStopped, IsHonest, IsRunning, TellsOrStopped};
ghost use Rattle.vd_device.specs.Frames.{CountsStand, IsNextTicket, TakesEvents};
ghost use Rattle.vd_device.specs.Orders.{IsInOrder};
ghost use Rattle.vd_device.specs.Calls.{Gives, Settles, IsCaused, IsUndone, ask_read_entry, ask_flush_entry, issue_entry, settled_of, settle_entries};

use crate::settled::{Settled, Waited};
use crate::ticket::Ticket;
use vd_law::entry::Sector;

/// A store of sectors. A call that is submitted is in flight from then on, until a settle or a wait of its ticket
/// answers that it is done or that it failed. Calls may end in any order.
///
/// A store may tell what it holds. Of a store that tells nothing all clauses hold but those under `tells` and `records`.
/// The law of a store's log, of failed writes and of crashes is stated in docs/MODEL.md.
pub trait Store {
    /// It tells its start, its log and what its sectors hold, and it hasn't stopped.
    ghost tells: { Self → Type 0 };

    /// It tells its start and its log, also where it has stopped: then as they stood at the stop.
    ghost records: { Self → Type 0 };

    ghost disk: { Self → Disk };

    /// These tickets are in flight, in whatever order.
    ghost flight: { Self → List AnyTicket → Type 0 };

    /// How many sectors it has. This never changes.
    ghost sectors: { Self → ℕ };

    /// How many tickets may be in flight. This never changes.
    ghost depth: { Self → ℕ };

    /// How many calls have failed. It never falls.
    ghost faults: { Self → ℕ };

    /// How many settles were too early. It never falls.
    ghost late: { Self → ℕ };

    /// The number of events: the log's length where the store tells, and above it once the store has stopped. It never falls.
    ghost events: { Self → ℕ };

    /// The number of the last ticket, 0 before the first. It never falls.
    ghost last: { Self → ℕ };

    fn sectors(&self) -> u64
        ensures value { result ≡ sectors self.now }
        ensures start { records self.now → length (disk self.now).start ≡ result }
        ensures held { tells self.now → length (disk self.now).held ≡ result };

    fn depth(&self) -> u64
        ensures value { result ≡ depth self.now }
        ensures enough { 128 ≤ result };

    fn faults(&self) -> u64
        ensures { result ≡ faults self.now };

    fn late(&self) -> u64
        ensures { result ≡ late self.now };

    /// How many tickets are in flight.
    fn in_flight(&self) -> u64
        ensures many { (tickets : List AnyTicket) → flight self.now tickets → result ≡ length tickets }
        ensures none { result ≡ 0 → flight self.now [] }
        // each write that is open in the log is in flight
        ensures writes { tells self.now → (tickets : List AnyTicket) → flight self.now tickets → AreWrites tickets (disk self.now) }
        // what reads give could stand there by the log
        ensures honest { tells self.now → IsHonest (disk self.now) }
        // each write was begun inside it where none was open, and each read was given what could be there
        ensures order { tells self.now → IsInOrder (disk self.now) }
        ensures recorded { tells self.now → records self.now };

    fn events(&self) -> u64
        ensures value { result ≡ events self.now }
        ensures running { tells self.now → IsRunning result (disk self.now) }
        ensures above { records self.now → length (disk self.now).log ≤ result }
        ensures stopped { records self.now → TellsOrStopped (tells self.now) result (disk self.now) };

    /// Submits a write of `content` to the sectors from `first` on.
    fn submit_write(&mut self, first: u64, content: &[Sector]) -> Ticket
        requires range { IsRange (sectors self.old) first (length content.now) }
        requires free { IsFree (flight self.old) (depth self.old) first (length content.now) }
        ensures ticket { IsTicket result Write first (length content.now) }
        ensures next { IsNextTicket last result self.old self.new }
        ensures rises { tells self.new → last self.old < result.number }
        ensures flight { Puts result (flight self.old) (flight self.new) }
        ensures counts { CountsStand sectors depth faults late last self.old self.new }
        ensures takes { TakesEvents tells records disk events (issue_entry result content.now ∷ []) self.old self.new };

    /// Submits a read of `count` sectors from `first` on.
    fn submit_read(&mut self, first: u64, count: u64) -> Ticket
        requires range { IsRange (sectors self.old) first count }
        requires free { IsFree (flight self.old) (depth self.old) first count }
        ensures ticket { IsTicket result Read first count }
        ensures next { IsNextTicket last result self.old self.new }
        ensures rises { tells self.new → last self.old < result.number }
        ensures flight { Puts result (flight self.old) (flight self.new) }
        ensures counts { CountsStand sectors depth faults late last self.old self.new }
        ensures takes { TakesEvents tells records disk events (ask_read_entry result ∷ []) self.old self.new };

    /// Submits a flush: once it is done, each write that was done before this call is durable.
    fn submit_flush(&mut self) -> Ticket
        requires place { HasPlace (flight self.old) (depth self.old) }
        ensures kind { result.kind ≡ Flush }
        ensures next { IsNextTicket last result self.old self.new }
        ensures rises { tells self.new → last self.old < result.number }
        ensures flight { Puts result (flight self.old) (flight self.new) }
        ensures counts { CountsStand sectors depth faults late last self.old self.new }
        ensures takes { TakesEvents tells records disk events (ask_flush_entry result ∷ []) self.old self.new };

    /// Asks once how the ticket went on. `out` has as many sectors as the ticket reads, else none; it is left as it was
    /// where the answer isn't Done. Failed comes only where the count of faults rose, NotYet only where that of late
    /// settles did, or where these stand at the greatest u64. A store that has stopped never answers Done.
    fn settle(&mut self, ticket: Ticket, out: &mut [Sector]) -> Settled
        requires mine { IsInFlight (flight self.old) ticket }
        requires room { length out.old ≡ sectors_read ticket }
        ensures settles { Settles result ticket out.old out.new (flight self.old) (flight self.new) }
        ensures cause { IsCaused result (faults self.old) (faults self.new) (late self.old) (late self.new) }
        ensures last { last self.new ≡ last self.old }
        ensures counts { CountsStand sectors depth faults late last self.old self.new }
        ensures takes { TakesEvents tells records disk events (settle_entries result ticket out.new) self.old self.new }
        ensures gives { tells self.new → Gives result ticket out.new (disk self.new).held }
        // a store that has stopped answers no call Done
        ensures undone { records self.new → HasStopped (events self.new) (disk self.new) → IsUndone result };

    /// Waits for the ticket's end. It always returns. Else as `settle`.
    fn wait(&mut self, ticket: Ticket, out: &mut [Sector]) -> Waited
        requires mine { IsInFlight (flight self.old) ticket }
        requires room { length out.old ≡ sectors_read ticket }
        ensures settles { Settles (settled_of result) ticket out.old out.new (flight self.old) (flight self.new) }
        ensures cause { IsCaused (settled_of result) (faults self.old) (faults self.new) (late self.old) (late self.new) }
        ensures last { last self.new ≡ last self.old }
        ensures counts { CountsStand sectors depth faults late last self.old self.new }
        ensures takes { TakesEvents tells records disk events (settle_entries (settled_of result) ticket out.new) self.old self.new }
        ensures gives { tells self.new → Gives (settled_of result) ticket out.new (disk self.new).held }
        // a store that has stopped answers no call Done
        ensures undone { records self.new → HasStopped (events self.new) (disk self.new) → IsUndone (settled_of result) };
}
