//! What a crash leaves in each sector is chosen.

ghost use Rattle.std.specs.Prelude.{◌≡◌, ℕ};

/// Chooses one of the contents that a crash may leave in a sector: the firm one comes first, then those of later writes.
pub trait Chooser {
    /// The answer at this state of the chooser, for this sector with so many contents, and the state that it leaves.
    ghost choice: { Self → ℕ → ℕ → ℕ × Self };

    /// The number of a content of the sector, from 0 on, of `count` contents. A number not below `count` means the last.
    fn choose(&mut self, sector: u64, count: u64) -> u64
        ensures { (result, self.new) ≡ choice self.old sector count };
}

/// Chooses the firm content: what was written since the last flush is lost.
#[derive(Clone, Copy, Drop)]
pub struct Lost;

impl Chooser for Lost {
    ghost use Rattle.std.specs.Prelude.{ℕ};

    ghost choice = { λ chooser sector count. (0, chooser) };

    fn choose(&mut self, _: u64, _: u64) -> u64 {
        0
    }
}

/// Chooses the last content: all that was written is kept.
#[derive(Clone, Copy, Drop)]
pub struct Kept;

impl Chooser for Kept {
    ghost use Rattle.std.specs.Prelude.{ℕ, ◌-◌};

    ghost choice = { λ chooser sector count. (count - 1, chooser) };

    fn choose(&mut self, _: u64, count: u64) -> u64 {
        count.saturating_sub(1)
    }
}
