//! The rules of a device, as they stand.

ghost use Rattle.std.specs.Prelude.{◌≡◌, [], map};
ghost use Rattle.std.specs.List.{list_any, filter};
ghost use Rattle.vd_device.specs.declared.ticket.Kind.TheVariants.{Read};
ghost use Rattle.vd_faults.specs.Rules.{covers_of, covers, holds, holds_spent, polled, outlives, is_hit, counted, is_nth};

use crate::rule::Rule;
use std::marker::Model;
use vd_device::{Kind, Ticket};

/// A list of rules, each of which changes as it is used.
#[derive(Drop)]
pub struct Rules {
    pub(crate) list: Vec<Rule>,
}

impl Model for Rules {
    ghost use Rattle.std.specs.Prelude.{List};
    ghost use Rattle.vd_faults.specs.declared.rule.Rule.{Rule as AnyRule};

    ghost Value = { List AnyRule };

    ghost view = { λ r. r.list.items };
}

/// Whether the ticket reads or writes sector s.
pub fn covers(ticket: &Ticket, s: u64) -> bool
    ensures { result ≡ covers ticket.now s }
{
    match ticket.kind() {
        Kind::Read | Kind::Write => has(ticket.first(), ticket.count(), s),
        Kind::Flush => false,
    }
}

/// Whether a range has sector s.
fn has(first: u64, count: u64, s: u64) -> bool
    ensures { result ≡ covers_of Read first count s }
{
    first <= s && s - first < count
}

fn holds(ticket: &Ticket, rule: Rule) -> bool
    ensures { result ≡ holds ticket.now rule }
{
    match rule {
        Rule::Hold {
            sector,
            until: _,
            polls: _,
        } => covers(ticket, sector),
        _ => false,
    }
}

fn holds_spent(ticket: &Ticket, rule: Rule) -> bool
    ensures { result ≡ holds_spent ticket.now rule }
{
    match rule {
        Rule::Hold {
            sector,
            until: _,
            polls,
        } => covers(ticket, sector) && polls == 0,
        _ => false,
    }
}

fn polled(ticket: &Ticket, rule: Rule) -> Rule
    ensures { result ≡ polled ticket.now rule }
{
    match rule {
        Rule::Hold {
            sector,
            until,
            polls,
        } if covers(ticket, sector) => Rule::Hold {
            sector,
            until,
            polls: polls.saturating_sub(1),
        },
        _ => rule,
    }
}

fn outlives(ticket: &Ticket, rule: Rule) -> bool
    ensures { result ≡ outlives ticket.now rule }
{
    match rule {
        Rule::Hold {
            sector: _,
            until,
            polls: _,
        } => !covers(ticket, until),
        _ => true,
    }
}

fn is_hit(first: u64, count: u64, rule: Rule) -> bool
    ensures { result ≡ is_hit first count rule }
{
    match rule {
        Rule::FailAt {
            sector,
            nth,
            keep: _,
        } => has(first, count, sector) && nth == 1,
        _ => false,
    }
}

fn counted(first: u64, count: u64, rule: Rule) -> Rule
    ensures { result ≡ counted first count rule }
{
    match rule {
        Rule::FailAt { sector, nth, keep } if has(first, count, sector) => Rule::FailAt {
            sector,
            nth: nth.saturating_sub(1),
            keep,
        },
        _ => rule,
    }
}

fn is_nth(ending: u64, rule: Rule) -> bool
    ensures { result ≡ is_nth ending rule }
{
    match rule {
        Rule::FailNth { nth, keep: _ } => nth == ending,
        _ => false,
    }
}

impl Rules {
    pub fn new(list: Vec<Rule>) -> Rules
        ensures { result ≡ list.items }
    {
        Rules { list }
    }

    /// Whether a rule holds the ticket.
    pub fn hold(&self, ticket: &Ticket) -> bool
        ensures { result ≡ list_any (holds ticket.now) self.now }
    {
        self.list.iter().any(|rule| holds(ticket, *rule))
    }

    /// Whether a rule holds the ticket that has no poll left.
    pub fn hold_spent(&self, ticket: &Ticket) -> bool
        ensures { result ≡ list_any (holds_spent ticket.now) self.now }
    {
        self.list.iter().any(|rule| holds_spent(ticket, *rule))
    }

    /// Takes a poll from each rule that holds the ticket.
    pub fn poll(&mut self, ticket: &Ticket)
        ensures { self.new ≡ map (polled ticket.now) self.old }
    {
        for i in 0..self.list.len() {
            self.list[i] = polled(ticket, self.list[i]);
        }
    }

    /// Ends the holds that waited for the ticket.
    pub fn release(&mut self, ticket: &Ticket)
        ensures { self.new ≡ filter (outlives ticket.now) self.old }
    {
        self.list.retain(|rule| outlives(ticket, *rule));
    }

    /// Whether a rule fails the ticket that ends with this number.
    pub fn fail_nth(&self, ending: u64) -> bool
        ensures { result ≡ list_any (is_nth ending) self.now }
    {
        self.list.iter().any(|rule| is_nth(ending, *rule))
    }

    /// Counts a read of these sectors in the rules by sector, and answers whether one of them fails it.
    pub fn count(&mut self, first: u64, count: u64) -> bool
        ensures hit { result ≡ list_any (is_hit first count) self.old }
        ensures after { self.new ≡ map (counted first count) self.old }
    {
        let hit = self.list.iter().any(|rule| is_hit(first, count, *rule));
        for i in 0..self.list.len() {
            self.list[i] = counted(first, count, self.list[i]);
        }
        hit
    }

    /// Takes all rules out.
    pub fn clear(&mut self)
        ensures { self.new ≡ [] }
    {
        self.list.clear();
    }
}
