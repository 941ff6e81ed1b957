//! A sink in memory.

ghost use Rattle.std.specs.Prelude.{◌≡◌, ◌+◌, ◌<◌, ◌≤◌, ◌↔◌, ◌⊎◌, [], length, OnErr, IsErr, MatchResult};
ghost use Rattle.std.specs.List.{Contains};
ghost use Rattle.vd_io.specs.Streams.{WritesText};
ghost use Rattle.vd_law.specs.Counts.{Rose, next_count};

use crate::Failed;
use crate::sink::Sink;
use std::marker::Model;

/// A sink that tells its bytes. A write that passes the end of its room fails, and so do those of some numbers, counted
/// from 1. A write that fails writes nothing.
#[derive(Drop)]
pub struct MemSink {
    room: Vec<u8>,
    used: usize,
    fail: Vec<u64>,
    calls: u64,
    faults: u64,
}

impl Model for MemSink {
    ghost use Rattle.std.specs.Prelude.{◌≤◌, length, take};
    ghost use Rattle.vd_io.specs.Memory.{Sheet};

    ghost Value = { Sheet };

    ghost view = { λ s. record { written = take s.used s.room.items; size = length s.room.items; fail = s.fail.items; calls = s.calls; faults = s.faults } };

    ghost invariant = { λ s. s.used ≤ length s.room.items };
}

impl MemSink {
    /// A sink with as many bytes of room as the list has, whose writes of these numbers fail.
    pub fn new(room: Vec<u8>, fail: Vec<u64>) -> MemSink
        ensures { result ≡ record { written = []; size = length room.items; fail = fail.items; calls = 0; faults = 0 } }
    {
        MemSink {
            room,
            used: 0,
            fail,
            calls: 0,
            faults: 0,
        }
    }

    /// What was written.
    pub fn bytes(&self) -> &[u8]
        ensures { result.now ≡ self.now.written }
    {
        &self.room.as_slice()[..self.used]
    }
}

impl Sink for MemSink {
    ghost use Rattle.std.specs.Prelude.{ℕ, List};

    ghost tells = { λ s. Unit {0} };

    ghost written = { λ s. s.written };

    ghost faults = { λ s. s.faults };

    fn write(&mut self, bytes: &[u8]) -> Result<(), Failed>
        ensures writes { WritesText bytes.now result self.old.written self.new.written }
        ensures nothing { OnErr result (self.new.written ≡ self.old.written) }
        ensures cause { OnErr result (Rose self.old.faults self.new.faults) }
        ensures no_fewer_faults { self.old.faults ≤ self.new.faults }
        ensures fails { IsErr result ↔ (Contains self.old.fail self.new.calls ⊎ (self.old.size < length self.old.written + length bytes.now)) }
        ensures calls { self.new.calls ≡ next_count self.old.calls }
        ensures faults { MatchResult result (λ u. self.new.faults ≡ self.old.faults) (λ e. self.new.faults ≡ next_count self.old.faults) }
        ensures fail { self.new.fail ≡ self.old.fail }
        ensures size { self.new.size ≡ self.old.size }
    {
        self.calls = self.calls.saturating_add(1);
        if self.fail.as_slice().contains(&self.calls) || self.room.len() - self.used < bytes.len() {
            self.faults = self.faults.saturating_add(1);
            return Err(Failed);
        }
        let end = self.used + bytes.len();
        self.room[self.used..end].copy_from_slice(bytes);
        self.used = end;
        Ok(())
    }

    fn faults(&self) -> u64 {
        self.faults
    }
}
