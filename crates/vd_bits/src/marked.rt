//! A set of numbers below a bound: marked pages, the chunks that a flush must log, free storage chunks.
//!
//! Above the flags of the numbers stand the flags of their words of 64 numbers, and so on up to a level of one word:
//! four levels for numbers below 16,777,216. A search for the lowest member goes down these levels, one word on each. From
//! a number on it goes up and down again, seven words of four levels at most, and never the words between.

ghost use Rattle.std.specs.Prelude.{◌≡◌, ℕ, ◌<◌, false, true, Some, length, replicate, IfOk, IfSome, IsNone, ◌↔◌, slice_set, slice_get};
ghost use Rattle.vd_bits.specs.Marks.{IsLowest, NoneFrom, count_true};

use crate::flags::Flags;
use crate::levels::{climb, descend, empties, empty_levels, mark_above, raise_all, unmark_above};
use std::alloc::Global;
use std::marker::Model;
use vd_law::entry::NoMemory;

/// The members of a set, which clauses see as a truth value for each number below the bound.
#[derive(Drop)]
pub struct Marked {
    flags: Flags,
    count: u64,
    /// The words that have a member, and above them theirs.
    above: Vec<Flags>,
}

impl Model for Marked {
    ghost use Rattle.std.specs.Prelude.{List, Bool};

    ghost Value = { List Bool };

    ghost use Rattle.vd_bits.specs.Summaries.{IsCounted};

    ghost view = { λ set. set.flags };

    ghost invariant = { IsCounted };
}

impl Marked {
    /// No number below `pages` is marked.
    pub fn new(alloc: Global, pages: u64) -> Result<Marked, NoMemory>
        ensures { IfOk result (λ marked. marked ≡ replicate pages false) }
    {
        let flags = Flags::new(alloc, pages)?;
        let above = empty_levels(alloc, pages)?;
        Ok(Marked {
            flags,
            count: 0,
            above,
        })
    }

    /// Marks all numbers.
    pub fn mark_all(&mut self)
        ensures { self.new ≡ replicate (length self.old) true }
    {
        self.flags.raise();
        self.count = self.flags.len();
        raise_all(&mut self.above);
    }

    /// Marks a number below the bound. Every other stays as it is.
    pub fn mark(&mut self, page: u64)
        requires { page < length self.old }
        ensures { self.new ≡ slice_set self.old page true }
    {
        if self.flags.get(page) {
            return;
        }
        self.flags.put(page, true);
        self.count += 1;
        mark_above(&mut self.above, page);
    }

    /// Takes the mark off a number below the bound. Every other stays as it is.
    pub fn unmark(&mut self, page: u64)
        requires { page < length self.old }
        ensures { self.new ≡ slice_set self.old page false }
    {
        if !self.flags.get(page) {
            return;
        }
        self.count -= 1;
        if empties(&mut self.flags, page) {
            unmark_above(&mut self.above, page);
        }
    }

    /// The lowest marked number, None where none is marked.
    pub fn first(&self) -> Option<u64>
        ensures lowest { IfSome result (IsLowest self.now 0) }
        ensures none { IsNone result ↔ NoneFrom self.now 0 }
    {
        descend(&self.flags, &self.above, 0)
    }

    /// The lowest marked number from `from` on, None where none from there on is marked.
    ///
    /// A flush goes over the chunks that it must log by this call alone, each time from one past the last chunk that
    /// it had: in rising order, 24 to a record, at a cost of its chunks.
    pub fn first_from(&self, from: u64) -> Option<u64>
        ensures lowest { IfSome result (IsLowest self.now from) }
        ensures none { IsNone result ↔ NoneFrom self.now from }
    {
        if let Some(page) = self.flags.lowest_from(from) {
            return Some(page);
        }
        let (level, word) = climb(&self.above, from)?;
        descend(&self.flags, &self.above[..level], word)
    }

    /// How many numbers are marked.
    pub fn count(&self) -> u64
        ensures { result ≡ count_true self.now }
    {
        self.count
    }
}
