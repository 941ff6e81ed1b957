//! The discard of a chunk by a run of primitives.
//!
//! The function here does nothing: its contract says that such a run can be made.
#![tactic(auto)]

ghost use Rattle.std.specs.Prelude.{ℕ, ◌≡◌, ◌<◌, Bool, true, List, Ok, Some};
ghost use Rattle.vd_law.specs.Entries.{Entry, Issue};
ghost use Rattle.vd_image.specs.Log.{Sector, CallId};
ghost use Rattle.vd_crash.specs.facts.Safe.{Opening};
ghost use Rattle.vd_crash.specs.facts.Words.{IsDropWrite};
ghost use Rattle.vd_crash.specs.facts.Opened.{IsAtOpening};
ghost use Rattle.vd_crash.specs.primitives.Primitives.{at_rest};
ghost use Rattle.vd_discard.specs.Released.{loss, IsReleasing};
ghost use Rattle.vd_crash.specs.facts.Memory.{Memory};

/// From each opening with a slot left, a guest's discard of a chunk and a flush have a run by which the chunk is zeros and its storage is free.
pub fn storage_is_released()
    ensures { (o : Opening) (log : List Entry) (m : Memory) (marked : ℕ → Bool) (c first : ℕ) (content : List Sector) (v : Sector) (d f t : CallId)
        → IsAtOpening o log m → c < o.layout.chunks → o.layout.discards ≡ true → m.index.cursor < o.layout.slots
        → IsDropWrite o c (Issue d first content) → o.format.record_of v ≡ Some (loss m.index.generation c)
        → IsReleasing o (at_rest log m marked) c first content d f }
{}
