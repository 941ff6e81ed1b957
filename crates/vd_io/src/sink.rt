//! Where bytes go.

ghost use Rattle.std.specs.Prelude.{◌≡◌, ℕ, ◌≤◌, List, OnErr};
ghost use Rattle.vd_io.specs.Streams.{WritesText};
ghost use Rattle.vd_law.specs.Counts.{Rose};

use crate::Failed;

/// A sink of bytes.
pub trait Sink {
    /// What it holds is told. What is told after a call was told before it.
    ghost tells: { Self → Type 0 };

    /// Where told, the bytes that were written so far.
    ghost written: { Self → List ℕ };

    /// How often a write has failed, up to the greatest u64.
    ghost faults: { Self → ℕ };

    /// Writes all of the bytes. After Failed a front of them was written.
    fn write(&mut self, bytes: &[u8]) -> Result<(), Failed>
        ensures told_before { tells self.new → tells self.old }
        ensures writes { tells self.new → WritesText bytes.now result (written self.old) (written self.new) }
        ensures no_fewer_faults { faults self.old ≤ faults self.new }
        ensures cause { OnErr result (Rose (faults self.old) (faults self.new)) };

    fn faults(&self) -> u64
        ensures { result ≡ faults self.now };
}
