//! The tickets of a device: their numbers, and what became of them.

ghost use Rattle.std.specs.Prelude.{◌≡◌, ◌+◌, ◌-◌, ◌^◌, ◌<◌, ◌≤◌, [], map, if◌then◌else◌};
ghost use Rattle.std.specs.List.{filter};
ghost use Rattle.vd_device.specs.Calls.{next_number};
ghost use Rattle.vd_faults.specs.Rules.{polled, outlives};

use vd_device::Ticket;
use vd_faults::{Rule, Rules};

/// How many tickets may be in flight on a device in memory.
pub const DEPTH: u64 = 128;

/// The number of the last ticket, how many are in flight and how many have ended, how many failed and how many polls came
/// too early; and the rules by which they fail.
#[derive(Drop)]
pub struct Tickets {
    pub last: u64,
    pub flying: u64,
    pub ended: u64,
    pub faults: u64,
    pub late: u64,
    pub rules: Rules,
}

impl Tickets {
    pub fn new(rules: Vec<Rule>) -> Tickets
        ensures { result ≡ record { last = 0; flying = 0; ended = 0; faults = 0; late = 0; rules = rules.items } }
    {
        Tickets {
            last: 0,
            flying: 0,
            ended: 0,
            faults: 0,
            late: 0,
            rules: Rules::new(rules),
        }
    }

    /// Puts one more ticket in flight, and answers its number.
    pub fn submit(&mut self) -> u64
        requires { self.old.flying + 1 < 2 ^ 64 }
        ensures number { result ≡ next_number self.old.last }
        ensures calm { self.old.last ≤ self.new.last }
        ensures after { self.new ≡ record self.old { last = next_number self.old.last; flying = self.old.flying + 1 } }
    {
        self.flying += 1;
        self.last = self.last.saturating_add(1);
        self.last
    }

    /// A poll came too early.
    pub fn poll(&mut self, ticket: &Ticket)
        ensures calm { self.old.late ≤ self.new.late }
        ensures after { self.new ≡ record self.old { late = next_number self.old.late; rules = map (polled ticket.now) self.old.rules } }
    {
        self.late = self.late.saturating_add(1);
        self.rules.poll(ticket);
    }

    /// A ticket has ended, and is done or failed.
    pub fn end(&mut self, ticket: &Ticket, done: bool)
        requires { 0 < self.old.flying }
        ensures calm { self.old.faults ≤ self.new.faults }
        ensures after { self.new ≡ record self.old {
          flying = self.old.flying - 1;
          ended = next_number self.old.ended;
          faults = (if done then self.old.faults else next_number self.old.faults);
          rules = filter (outlives ticket.now) self.old.rules;
        } }
    {
        self.flying -= 1;
        self.ended = self.ended.saturating_add(1);
        if !done {
            self.faults = self.faults.saturating_add(1);
        }
        self.rules.release(ticket);
    }

    /// Forgets all tickets and all rules.
    pub fn clear(&mut self)
        ensures { self.new ≡ record { last = 0; flying = 0; ended = 0; faults = 0; late = 0; rules = [] } }
    {
        self.last = 0;
        self.flying = 0;
        self.ended = 0;
        self.faults = 0;
        self.late = 0;
        self.rules.clear();
    }
}
