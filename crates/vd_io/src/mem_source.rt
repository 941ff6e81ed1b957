//! A source in memory.

ghost use Rattle.std.specs.Prelude.{◌≡◌, ◌≤◌, ◌↔◌, length, min, IfOk, OnErr, IsErr, MatchResult};
ghost use Rattle.std.specs.List.{Contains};
ghost use Rattle.vd_io.specs.Streams.{Reads};
ghost use Rattle.vd_law.specs.Counts.{Rose, next_count};

use crate::Failed;
use crate::source::Source;
use std::marker::Model;

/// A source that tells its bytes. A read gives as many as the room and they allow, and the reads of some numbers,
/// counted from 1, fail.
#[derive(Drop)]
pub struct MemSource {
    bytes: Vec<u8>,
    at: usize,
    fail: Vec<u64>,
    calls: u64,
    faults: u64,
}

impl Model for MemSource {
    ghost use Rattle.std.specs.Prelude.{◌≤◌, length, drop};
    ghost use Rattle.vd_io.specs.Memory.{Supply};

    ghost Value = { Supply };

    ghost view = { λ s. record { rest = drop s.at s.bytes.items; fail = s.fail.items; calls = s.calls; faults = s.faults } };

    ghost invariant = { λ s. s.at ≤ length s.bytes.items };
}

impl MemSource {
    /// A source of these bytes, whose reads of these numbers fail.
    pub fn new(bytes: Vec<u8>, fail: Vec<u64>) -> MemSource
        ensures { result ≡ record { rest = bytes.items; fail = fail.items; calls = 0; faults = 0 } }
    {
        MemSource {
            bytes,
            at: 0,
            fail,
            calls: 0,
            faults: 0,
        }
    }
}

impl Source for MemSource {
    ghost use Rattle.std.specs.Prelude.{ℕ, List};

    ghost tells = { λ s. Unit {0} };

    ghost rest = { λ s. s.rest };

    ghost faults = { λ s. s.faults };

    fn read(&mut self, room: &mut [u8]) -> Result<usize, Failed>
        ensures within { IfOk result (λ n. n ≤ length room.new) }
        ensures bytes { Reads result self.old.rest self.new.rest room.old room.new }
        ensures most { IfOk result (λ n. n ≡ min (length room.old) (length self.old.rest)) }
        ensures cause { OnErr result (Rose self.old.faults self.new.faults) }
        ensures no_fewer_faults { self.old.faults ≤ self.new.faults }
        ensures fails { IsErr result ↔ Contains self.old.fail self.new.calls }
        ensures calls { self.new.calls ≡ next_count self.old.calls }
        ensures faults { MatchResult result (λ n. self.new.faults ≡ self.old.faults) (λ e. self.new.faults ≡ next_count self.old.faults) }
        ensures fail { self.new.fail ≡ self.old.fail }
    {
        self.calls = self.calls.saturating_add(1);
        if self.fail.as_slice().contains(&self.calls) {
            self.faults = self.faults.saturating_add(1);
            return Err(Failed);
        }
        let count = room.len().min(self.bytes.len() - self.at);
        let end = self.at + count;
        room[..count].copy_from_slice(&self.bytes.as_slice()[self.at..end]);
        self.at = end;
        Ok(count)
    }

    fn faults(&self) -> u64 {
        self.faults
    }
}
