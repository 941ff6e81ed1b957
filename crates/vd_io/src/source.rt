//! Where bytes come from.

ghost use Rattle.std.specs.Prelude.{◌≡◌, ℕ, ◌≤◌, List, length, IfOk, OnErr};
ghost use Rattle.vd_io.specs.Streams.{Reads};
ghost use Rattle.vd_law.specs.Counts.{Rose};

use crate::Failed;

/// A source of bytes, which gives them in pieces of its own choosing.
pub trait Source {
    /// What it gives is told. What is told after a call was told before it.
    ghost tells: { Self → Type 0 };

    /// Where told, the bytes that are still to come.
    ghost rest: { Self → List ℕ };

    /// How often a read has failed, up to the greatest u64.
    ghost faults: { Self → ℕ };

    /// Puts bytes at the front of the room, and answers how many. 0 is the end, unless the room is empty.
    fn read(&mut self, room: &mut [u8]) -> Result<usize, Failed>
        ensures within { IfOk result (λ n. n ≤ length room.new) }
        ensures told_before { tells self.new → tells self.old }
        ensures bytes { tells self.new → Reads result (rest self.old) (rest self.new) room.old room.new }
        ensures no_fewer_faults { faults self.old ≤ faults self.new }
        ensures cause { OnErr result (Rose (faults self.old) (faults self.new)) };

    fn faults(&self) -> u64
        ensures { result ≡ faults self.now };
}
