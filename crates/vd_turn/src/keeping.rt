//! What a value under the lock keeps.
ghost use Rattle.std.specs.Prelude.{◌≡◌, ℕ, ◌^◌, ◌<◌, List, length};

/// A value that keeps a list of entries, each made by one pass, a part for each pass, a part that is fixed, and a
/// number of steps. Passes are named by their numbers.
pub trait Kept {
    /// No value of these three is made.
    type Entry;

    type Part;

    type Fixed;

    ghost entries: { Self → List Self.Entry };

    // the pass that made an entry
    ghost maker: { Self.Entry → ℕ };

    // what a pass alone may change, beside its entries
    ghost part: { ℕ → Self → Self.Part };

    // what no pass may change
    ghost fixed: { Self → Self.Fixed };

    // how many steps were made; one hold of the lock raises it by one at most
    ghost steps: { Self → ℕ };

    /// The number of entries, below 2^63.
    fn length(&self) -> u64
        ensures counts { result ≡ length (entries self.now) }
        ensures bounded { result < 2 ^ 63 };
}
