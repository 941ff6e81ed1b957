//! A base in memory.

ghost use Rattle.std.specs.Prelude.{◌≡◌, ◌+◌, ◌-◌, ◌<◌, ◌≤◌, true, false, length, slice_range};
ghost use Rattle.std.specs.List.{list_any};
ghost use Rattle.vd_device.specs.declared.ticket.Kind.TheVariants.{Read};
ghost use Rattle.vd_device.specs.Tickets.{IsRange, IsFree, IsInFlight, Puts, IsTicket, sectors_read};
ghost use Rattle.vd_device.specs.Calls.{Settles, Gives, IsCaused, settled_of};
ghost use Rattle.vd_device.specs.Frames.{ContentStands, CountsStand, IsNextTicket};
ghost use Rattle.vd_faults.specs.Rules.{is_hit};
ghost use Rattle.vd_mem.specs.BaseState.{FliesBase, mark_of, read_submitted, read_fails, read_waited, read_answer, read_late, read_polled, poll_answer};
ghost use Rattle.vd_mem.specs.Devices.{mem_base};

use crate::ends::{answer, settled};
use crate::tickets::{DEPTH, Tickets};
use std::marker::Model;
use vd_device::{Base, Kind, Settled, Ticket, Waited};
use vd_faults::Rule;
use vd_law::entry::Sector;

/// A base in memory that tells everything and fails by a list of rules. Of a rule on writes what is kept says nothing here.
#[derive(Drop)]
pub struct MemBase {
    content: Vec<Sector>,
    tickets: Tickets,
}

impl Model for MemBase {
    ghost use Rattle.vd_mem.specs.BaseState.{MemBaseState};

    ghost Value = { MemBaseState };

    ghost use Rattle.vd_mem.specs.BaseFields.{base_of};

    ghost view = { base_of };
}

/// Gives what the ticket reads, where it is done.
fn give(content: &Vec<Sector>, ticket: &Ticket, done: bool, out: &mut [Sector])
    requires within { ticket.now.first + ticket.now.count ≤ length content.now.items }
    requires room { length out.old ≡ ticket.now.count }
    ensures read { done ≡ true → out.new ≡ slice_range content.now.items ticket.now.first (ticket.now.first + ticket.now.count) }
    ensures unread { done ≡ false → out.new ≡ out.old }
{
    if done {
        let from = ticket.first() as usize;
        out.copy_from_slice(&content[from..from + ticket.count() as usize]);
    }
}

impl MemBase {
    /// A base with this content, which fails by these rules.
    pub fn new(content: Vec<Sector>, rules: Vec<Rule>) -> MemBase
        ensures { result ≡ record { content = content.items; rules = rules.items; last = 0; flying = 0; ended = 0; faults = 0; late = 0 } }
    {
        MemBase {
            content,
            tickets: Tickets::new(rules),
        }
    }

    /// How many reads were submitted.
    pub fn reads(&self) -> u64
        ensures { result ≡ self.now.last }
    {
        self.tickets.last
    }

    /// Whether a rule fails the ticket where it is waited for.
    fn fails(&self, ticket: &Ticket) -> bool
        ensures { result ≡ read_fails self.now ticket.now }
    {
        let ending = self.tickets.ended.saturating_add(1);
        self.tickets.rules.hold(ticket) || ticket.mark() == 1 || self.tickets.rules.fail_nth(ending)
    }

    /// Whether a poll of the ticket comes too early.
    fn is_late(&self, ticket: &Ticket) -> bool
        ensures { result ≡ read_late self.now ticket.now }
    {
        self.tickets.rules.hold(ticket) && !self.tickets.rules.hold_spent(ticket)
    }
}

impl Base for MemBase {
    ghost use Rattle.std.specs.Prelude.{length};
    ghost use Rattle.vd_mem.specs.BaseState.{FliesBase};

    ghost tells = { λ b. Unit {0} };

    ghost content = { λ b. b.content };

    ghost flight = { FliesBase };

    ghost sectors = { λ b. length b.content };

    ghost depth = { λ b. 128 };

    ghost faults = { λ b. b.faults };

    ghost late = { λ b. b.late };

    ghost last = { λ b. b.last };

    fn sectors(&self) -> u64 {
        self.content.len() as u64
    }

    fn depth(&self) -> u64 {
        DEPTH
    }

    fn faults(&self) -> u64 {
        self.tickets.faults
    }

    fn late(&self) -> u64 {
        self.tickets.late
    }

    fn in_flight(&self) -> u64 {
        self.tickets.flying
    }

    fn submit_read(&mut self, first: u64, count: u64) -> Ticket
        requires range { IsRange (length self.old.content) first count }
        requires free { IsFree (FliesBase self.old) 128 first count }
        ensures ticket { IsTicket result Read first count }
        ensures next { IsNextTicket mem_base.last result self.old self.new }
        ensures flight { Puts result (FliesBase self.old) (FliesBase self.new) }
        ensures counts { CountsStand mem_base.sectors mem_base.depth mem_base.faults mem_base.late mem_base.last self.old self.new }
        ensures telling { ContentStands mem_base.tells mem_base.content self.old self.new }
        // whether a rule by sector fails it, and the base's new state, whole
        ensures mark { result.mark ≡ mark_of (list_any (is_hit first count) self.old.rules) }
        ensures after { self.new ≡ read_submitted first count self.old }
    {
        let number = self.tickets.submit();
        let fails = self.tickets.rules.count(first, count);
        Ticket::new(number, Kind::Read, first, count, u64::from(fails))
    }

    fn settle(&mut self, ticket: Ticket, out: &mut [Sector]) -> Settled
        requires mine { IsInFlight (FliesBase self.old) ticket }
        requires room { length out.old ≡ sectors_read ticket }
        ensures settles { Settles result ticket out.old out.new (FliesBase self.old) (FliesBase self.new) }
        ensures cause { IsCaused result self.old.faults self.new.faults self.old.late self.new.late }
        ensures last { self.new.last ≡ self.old.last }
        ensures counts { CountsStand mem_base.sectors mem_base.depth mem_base.faults mem_base.late mem_base.last self.old self.new }
        ensures telling { ContentStands mem_base.tells mem_base.content self.old self.new }
        ensures gives { Gives result ticket out.new self.new.content }
        // which answer, and the base's new state, whole
        ensures answer { result ≡ poll_answer self.old ticket }
        ensures after { self.new ≡ read_polled ticket self.old }
    {
        if self.is_late(&ticket) {
            self.tickets.poll(&ticket);
            return Settled::NotYet(ticket);
        }
        settled(self.wait(ticket, out))
    }

    fn wait(&mut self, ticket: Ticket, out: &mut [Sector]) -> Waited
        requires mine { IsInFlight (FliesBase self.old) ticket }
        requires room { length out.old ≡ sectors_read ticket }
        ensures settles { Settles (settled_of result) ticket out.old out.new (FliesBase self.old) (FliesBase self.new) }
        ensures cause { IsCaused (settled_of result) self.old.faults self.new.faults self.old.late self.new.late }
        ensures last { self.new.last ≡ self.old.last }
        ensures counts { CountsStand mem_base.sectors mem_base.depth mem_base.faults mem_base.late mem_base.last self.old self.new }
        ensures telling { ContentStands mem_base.tells mem_base.content self.old self.new }
        ensures gives { Gives (settled_of result) ticket out.new self.new.content }
        // which answer, and the base's new state, whole
        ensures answer { settled_of result ≡ read_answer self.old ticket }
        ensures after { self.new ≡ read_waited ticket self.old }
    {
        let done = !self.fails(&ticket);
        give(&self.content, &ticket, done, out);
        self.tickets.end(&ticket, done);
        answer(done, ticket.spend())
    }
}
