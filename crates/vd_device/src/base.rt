//! A base: sectors that are only read and never change.

ghost use Rattle.std.specs.Prelude.{◌≡◌, ◌+◌, ◌-◌, ◌*◌, ◌^◌, ◌<◌, ◌≤◌, ℕ, List, [], length};
ghost use Rattle.vd_law.specs.declared.entry.Sector.{Sector as AnySector};
ghost use Rattle.vd_device.specs.declared.ticket.Ticket.{Ticket as AnyTicket};
ghost use Rattle.vd_device.specs.declared.ticket.Kind.TheVariants.{Read};
ghost use Rattle.vd_device.specs.Tickets.{IsRange, IsFree, IsInFlight, Puts, IsTicket, sectors_read};
ghost use Rattle.vd_device.specs.Frames.{ContentStands, CountsStand, IsNextTicket};
ghost use Rattle.vd_device.specs.Calls.{Gives, Settles, IsCaused, settled_of};

use crate::settled::{Settled, Waited};
use crate::ticket::Ticket;
use vd_law::entry::Sector;

/// A base image: a device that is only read, whose sectors never change. Its calls are those of a store.
pub trait Base {
    /// It tells what its sectors hold.
    ghost tells: { Self → Type 0 };

    ghost content: { Self → List AnySector };

    /// These tickets are in flight, in whatever order.
    ghost flight: { Self → List AnyTicket → Type 0 };

    /// How many sectors it has. This never changes.
    ghost sectors: { Self → ℕ };

    /// How many tickets may be in flight. This never changes.
    ghost depth: { Self → ℕ };

    /// How many calls have failed. It never falls.
    ghost faults: { Self → ℕ };

    /// How many settles were too early. It never falls.
    ghost late: { Self → ℕ };

    /// The number of the last ticket, 0 before the first. It never falls.
    ghost last: { Self → ℕ };

    fn sectors(&self) -> u64
        ensures value { result ≡ sectors self.now }
        ensures content { tells self.now → length (content self.now) ≡ result };

    fn depth(&self) -> u64
        ensures value { result ≡ depth self.now }
        ensures enough { 128 ≤ result };

    fn faults(&self) -> u64
        ensures { result ≡ faults self.now };

    fn late(&self) -> u64
        ensures { result ≡ late self.now };

    /// How many tickets are in flight.
    fn in_flight(&self) -> u64
        ensures many { (tickets : List AnyTicket) → flight self.now tickets → result ≡ length tickets }
        ensures none { result ≡ 0 → flight self.now [] };

    /// Submits a read of `count` sectors from `first` on.
    fn submit_read(&mut self, first: u64, count: u64) -> Ticket
        requires range { IsRange (sectors self.old) first count }
        requires free { IsFree (flight self.old) (depth self.old) first count }
        ensures ticket { IsTicket result Read first count }
        ensures next { IsNextTicket last result self.old self.new }
        ensures flight { Puts result (flight self.old) (flight self.new) }
        ensures counts { CountsStand sectors depth faults late last self.old self.new }
        ensures telling { ContentStands tells content self.old self.new };

    /// Asks once how the ticket went on. `out` has as many sectors as the ticket reads; it is left as it was where the
    /// answer isn't Done. Failed and NotYet come only where their count rose or stands at the greatest u64.
    fn settle(&mut self, ticket: Ticket, out: &mut [Sector]) -> Settled
        requires mine { IsInFlight (flight self.old) ticket }
        requires room { length out.old ≡ sectors_read ticket }
        ensures settles { Settles result ticket out.old out.new (flight self.old) (flight self.new) }
        ensures cause { IsCaused result (faults self.old) (faults self.new) (late self.old) (late self.new) }
        ensures last { last self.new ≡ last self.old }
        ensures counts { CountsStand sectors depth faults late last self.old self.new }
        ensures telling { ContentStands tells content self.old self.new }
        ensures gives { tells self.new → Gives result ticket out.new (content self.new) };

    /// Waits for the ticket's end. It always returns. Else as `settle`.
    fn wait(&mut self, ticket: Ticket, out: &mut [Sector]) -> Waited
        requires mine { IsInFlight (flight self.old) ticket }
        requires room { length out.old ≡ sectors_read ticket }
        ensures settles { Settles (settled_of result) ticket out.old out.new (flight self.old) (flight self.new) }
        ensures cause { IsCaused (settled_of result) (faults self.old) (faults self.new) (late self.old) (late self.new) }
        ensures last { last self.new ≡ last self.old }
        ensures counts { CountsStand sectors depth faults late last self.old self.new }
        ensures telling { ContentStands tells content self.old self.new }
        ensures gives { tells self.new → Gives (settled_of result) ticket out.new (content self.new) };
}
