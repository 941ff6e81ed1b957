//! The bytes that were read from a source and not yet taken.

ghost use Rattle.std.specs.Prelude.{◌≡◌, ◌+◌, ◌<◌, ◌≤◌, ◌++◌, [], length, drop, IfOk, OnErr};
ghost use Rattle.vd_law.specs.Counts.{Rose};

use crate::Failed;
use crate::source::Source;
use std::marker::Model;

/// Room for so many bytes.
const ROOM: usize = 8192;

/// The bytes from one place to another, which were read and not yet taken.
#[derive(Drop)]
pub struct Window {
    bytes: [u8; ROOM],
    from: usize,
    to: usize,
}

impl Model for Window {
    ghost use Rattle.std.specs.Prelude.{ℕ, List, ◌≤◌, slice_range};

    ghost Value = { List ℕ };

    ghost view = { λ w. slice_range w.bytes w.from w.to };

    ghost invariant = { λ w. (w.from ≤ w.to) × (w.to ≤ 8192) };
}

impl Window {
    pub fn new() -> Window
        ensures { result ≡ [] }
    {
        Window {
            bytes: [0; ROOM],
            from: 0,
            to: 0,
        }
    }

    pub fn len(&self) -> usize
        ensures value { result ≡ length self.now }
        ensures room { length self.now ≤ 8192 }
    {
        self.to - self.from
    }

    /// The bytes.
    pub fn bytes(&self) -> &[u8]
        ensures { result.now ≡ self.now }
    {
        &self.bytes[self.from..self.to]
    }

    /// Takes so many bytes off the front.
    pub fn skip(&mut self, count: usize)
        requires { count ≤ length self.old }
        ensures { self.new ≡ drop count self.old }
    {
        self.from += count;
    }

    /// Reads more bytes behind those that are there, and answers how many. 0 is the end of the source.
    pub fn fill<I: Source>(&mut self, source: &mut I) -> Result<usize, Failed>
        requires { length self.old < 8192 }
        ensures grows { IfOk result (λ n. length self.new ≡ length self.old + n) }
        ensures same { IfOk result (λ n. n ≡ 0 → self.new ≡ self.old) }
        ensures told_before { I.tells source.new → I.tells source.old }
        ensures bytes { I.tells source.new → IfOk result (λ n. self.new ++ I.rest source.new ≡ self.old ++ I.rest source.old) }
        ensures ended { I.tells source.new → IfOk result (λ n. n ≡ 0 → I.rest source.new ≡ []) }
        ensures failed { I.tells source.new → OnErr result (I.rest source.new ≡ I.rest source.old) }
        ensures no_fewer_faults { I.faults source.old ≤ I.faults source.new }
        ensures cause { OnErr result (Rose (I.faults source.old) (I.faults source.new)) }
    {
        let there = self.to - self.from;
        self.bytes.copy_within(self.from..self.to, 0);
        self.from = 0;
        self.to = there;
        let count = source.read(&mut self.bytes[there..])?;
        self.to = there + count;
        Ok(count)
    }
}
