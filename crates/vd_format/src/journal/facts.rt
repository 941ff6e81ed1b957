//! The facts of a record.

ghost use Rattle.std.specs.Prelude.{◌≡◌, ◌<◌, ◌≤◌, [], ◌∷◌, ◌++◌, length, slice_get, Some};

use crate::journal::Fact2;
use crate::map::Entry;
use std::marker::Model;

const NO_FACT: Fact2 = Fact2 {
    chunk: 0,
    entry: Entry {
        storage: 0,
        zeros: false,
        mask: 0,
    },
};

/// The facts of a record, at most 24, in order.
#[derive(Drop)]
pub struct Facts2 {
    facts: [Fact2; 24],
    len: u32,
}

impl Model for Facts2 {
    ghost use Rattle.std.specs.Prelude.{◌≡◌, ◌≤◌, List, length, take};
    ghost use Rattle.vd_format.specs.declared.journal.Fact2.{Fact2};

    ghost Value = { List Fact2 };

    ghost view = { λ f. take f.len f.facts };

    ghost invariant = { λ f. (f.len ≤ 24) × (length f.facts ≡ 24) };
}

impl Facts2 {
    /// No facts yet.
    pub fn new() -> Facts2
        ensures { result ≡ [] }
    {
        Facts2 {
            facts: [NO_FACT; 24],
            len: 0,
        }
    }

    /// Adds a fact behind the others. There is room for 24.
    pub fn push(&mut self, fact: Fact2)
        requires { length self.old < 24 }
        ensures { self.new ≡ self.old ++ fact ∷ [] }
    {
        self.facts[self.len as usize] = fact;
        self.len += 1;
    }

    /// How many facts there are, from 0 to 24.
    pub fn len(&self) -> u32
        ensures len { result ≡ length self.now }
        ensures most { length self.now ≤ 24 }
    {
        self.len
    }

    /// The fact at a place, from 0.
    pub fn get(&self, at: u32) -> Fact2
        requires { at < length self.now }
        ensures { slice_get self.now at ≡ Some result }
    {
        self.facts[at as usize]
    }
}

/// What a slot of the journal says.
#[derive(Drop)]
pub enum Slot2 {
    /// The slot does not count: it has another magic or another generation.
    Other,
    /// The slot counts, with these facts.
    Counts(Facts2),
    /// The slot counts, and its record is outside the grammar.
    Bad,
}
