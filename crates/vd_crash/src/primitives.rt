//! The primitives of a core with any number of passes: every interleaving of them is safe.

ghost use Rattle.std.specs.Prelude.{ℕ, ◌≡◌, ◌<◌, ◌⊎◌, Bool, true, false, List, length, Some};
ghost use Rattle.vd_law.specs.Entries.{Entry};
ghost use Rattle.vd_image.specs.Log.{Sector};
ghost use Rattle.vd_image.specs.Image.{Header};
ghost use Rattle.vd_crash.specs.facts.Safe.{Opening, IsSafe};
ghost use Rattle.vd_crash.specs.facts.Facts.{NoDropFrom, IsLastDrop, IsDroppedAfter, IsWrittenBefore};
ghost use Rattle.vd_crash.specs.facts.Opened.{IsAtOpening};
ghost use Rattle.vd_crash.specs.flushes.Flushing.{IsDroppedFrom, AreOpeningMarks};
ghost use Rattle.vd_crash.specs.primitives.FlushSteps.{IsWorking, IsRecycleHeader, MayLowerTracked};
ghost use Rattle.vd_crash.specs.primitives.Primitives.{IsNextHeader, IsPrimitive, Interleaves, State, at_rest};
ghost use Rattle.vd_crash.specs.primitives.Keeping.{KeepsCrashSafety};
ghost use Rattle.vd_crash.specs.facts.Memory.{Memory};
ghost use Rattle.vd_format.specs.Background.{background};

/// Every image at every moment of every interleaving of primitives from an opening is safe.
pub fn every_interleaving_is_safe()
    ensures { (o : Opening) (log : List Entry) (m : Memory) (marked : ℕ → Bool) (s : State) → IsAtOpening o log m → AreOpeningMarks o m marked
        → Interleaves o (at_rest log m marked) s → IsSafe o s.log s.history }
{}

/// What a core keeps holds at opening, each primitive keeps it, and every image at every moment is safe where it holds.
pub fn safety_is_kept()
    ensures opening { (o : Opening) (log : List Entry) (m : Memory) (marked : ℕ → Bool) → IsAtOpening o log m → AreOpeningMarks o m marked
        → KeepsCrashSafety o (at_rest log m marked) }
    ensures primitive { (o : Opening) (s t : State) → IsPrimitive o s t → KeepsCrashSafety o s → KeepsCrashSafety o t }
    ensures safe { (o : Opening) (s : State) → KeepsCrashSafety o s → IsSafe o s.log s.history }
{}

/// What a core may take out of the word that it keeps: the content of a block that isn't local, by its chunk's kind, that local blocks have
/// storage, what a flush has set out to write, and that a next header may be put.
pub fn what_is_kept()
    ensures background { (o : Opening) (s : State) (t : ℕ) → KeepsCrashSafety o s → t < o.layout.size → s.memory.fresh (o.layout.block_of t) ≡ false
        → s.memory.discards.zeros (o.layout.chunk_of (o.layout.block_of t)) ≡ false → background o.base o.zeros s.memory.index.tracked t ≡ o.disk t }
    ensures zeros { (o : Opening) (s : State) (t : ℕ) → KeepsCrashSafety o s → s.memory.fresh (o.layout.block_of t) ≡ false
        → s.memory.discards.zeros (o.layout.chunk_of (o.layout.block_of t)) ≡ true
        → IsLastDrop s.memory.discards.drops s.history (o.layout.chunk_of (o.layout.block_of t))
        ⊎ (NoDropFrom s.memory.discards.drops s.history 0 (o.layout.chunk_of (o.layout.block_of t)) × (o.disk t ≡ o.zeros)) }
    ensures unwritten { (o : Opening) (s : State) (b j : ℕ) → KeepsCrashSafety o s → s.memory.fresh b ≡ false
        → IsWrittenBefore o s.memory.discards.drops s.history (length s.history) b j
        → IsDroppedAfter s.memory.discards.drops s.history j (o.layout.chunk_of b) }
    ensures local { (o : Opening) (s : State) (b : ℕ) → KeepsCrashSafety o s → s.memory.fresh b ≡ true
        → (b < o.layout.blocks) × ((p : ℕ) × (s.memory.index.table (o.layout.chunk_of b) ≡ Some p)) }
    ensures wanted { (o : Opening) (s : State) (w : IsWorking s) (b : ℕ) → KeepsCrashSafety o s → w.progress.snapshot.wanted b ≡ true
        → (b < o.layout.blocks) × ((p : ℕ) × (s.memory.index.table (o.layout.chunk_of b) ≡ Some p))
        × ((s.memory.fresh b ≡ true) ⊎ IsDroppedFrom s.memory.discards.drops s.history w.progress.snapshot.begun (o.layout.chunk_of b)) }
    // a recycle that leaves the tracked part
    ensures same_tracked { (o : Opening) (s : State) (w : IsWorking s) (v : Sector) (next : Header) → KeepsCrashSafety o s
        → IsRecycleHeader o s.memory w.progress v next → next.tracked ≡ s.memory.index.tracked
        → IsNextHeader o s.memory w.progress v next s.memory.index.tried }
    // one that lowers it, over sectors that are zero in the base or whose block is logged
    ensures lower_tracked { (o : Opening) (s : State) (w : IsWorking s) (v : Sector) (next : Header) (tried : ℕ → Bool) → KeepsCrashSafety o s
        → IsRecycleHeader o s.memory w.progress v next → MayLowerTracked o s.memory w.progress.snapshot next tried
        → IsNextHeader o s.memory w.progress v next tried }
{}
