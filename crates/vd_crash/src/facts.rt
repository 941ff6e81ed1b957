//! The facts that a core keeps of its logs and its memory, from opening on, and the safety that follows from them.

ghost use Rattle.std.specs.Prelude.{ℕ, ◌≡◌, take, ◌<◌, ◌≤◌, ◌++◌, ◌∷◌, [], List, length};
ghost use Rattle.vd_law.specs.Entries.{Entry, Reply};
ghost use Rattle.vd_law.specs.declared.entry.CallId.{CallId};
ghost use Rattle.vd_image.specs.Log.{Fine};
ghost use Rattle.vd_image.specs.Image.{Header};
ghost use Rattle.vd_image.specs.Layouts.{IsValid, layout_of};
ghost use Rattle.vd_image.specs.Decoders.{this_version, format_of};
ghost use Rattle.vd_crash.specs.facts.Safe.{NumberedEntry, Opening, events, numbered, events_up_to, IsSafe, IsSafeNow};
ghost use Rattle.vd_law.specs.declared.entry.Sector.{Sector};
ghost use Rattle.vd_law.specs.Histories.{HistoryState, IsRising, count_up_to};
ghost use Rattle.vd_crash.specs.facts.CrashSafe.{IsRunOf, IsCrashSafe};
ghost use Rattle.vd_crash.specs.facts.Facts.{CrashFacts, Holds};
ghost use Rattle.vd_crash.specs.facts.Opened.{IsAtOpening};
ghost use Rattle.vd_crash.specs.facts.Memory.{Memory};

/// Where the facts hold, each image that a crash may leave now is safe.
pub fn facts_are_enough()
    ensures { (o : Opening) (log : List Entry) (history : List NumberedEntry) (m : Memory) → CrashFacts o log history m
        → IsSafeNow o log (events history) }
{}

/// One more store event changes safety at no earlier moment: what is left to show is the facts after it.
pub fn safe_after_event()
    ensures { (o : Opening) (log : List Entry) (history : List NumberedEntry) (m : Memory) (e : Entry) → IsSafe o log history
        → CrashFacts o (log ++ e ∷ []) history m → IsSafe o (log ++ e ∷ []) history }
{}

/// One more entry, numbered at the last moment, changes safety at no earlier moment.
pub fn safe_after_entry()
    ensures last { (o : Opening) (log : List Entry) (history : List NumberedEntry) (m : Memory) (x : NumberedEntry) → IsSafe o log history
        → length log ≤ x.number → CrashFacts o log (history ++ x ∷ []) m → IsSafe o log (history ++ x ∷ []) }
    // An entry that is numbered later, as only a stopped store leaves it, changes it at no moment.
    ensures late { (o : Opening) (log : List Entry) (history : List NumberedEntry) (x : NumberedEntry) → IsSafe o log history → length log < x.number
        → IsSafe o log (history ++ x ∷ []) }
    // Nor does an entry that answers no flush well take anything away, however it is numbered, as that of a write with which a store stops.
    ensures other { (o : Opening) (log : List Entry) (history : List NumberedEntry) (x : NumberedEntry) → IsSafe o log history
        → ((id : CallId) → x.event ≡ Reply id Fine → ⊥) → IsSafe o log (history ++ x ∷ []) }
{}

/// All facts hold at opening.
pub fn facts_at_opening()
    ensures { (o : Opening) (log : List Entry) (m : Memory) → IsAtOpening o log m → Holds o log [] m }
{}

/// A history as the law keeps it, of entries and their numbers, has the same entries here, all and up to each number.
pub fn history_is_the_same()
    ensures all { (entries : List Entry) (numbers : List ℕ) → length numbers ≡ length entries → events (numbered entries numbers) ≡ entries }
    ensures first { (entries : List Entry) (numbers : List ℕ) (from k : ℕ) → IsRising from numbers → length numbers ≡ length entries
        → events_up_to (numbered entries numbers) k ≡ take (count_up_to k numbers) entries }
{}

/// What is safe is so in the words of the law, over what a store tells and the history as it is kept.
pub fn safe_in_the_words_of_the_law()
    ensures { (o : Opening) (start : List Sector) (log : List Entry) (disk : List Sector) (history : HistoryState) → IsRunOf o start log disk history
        → IsSafe o log (numbered history.log.entries history.numbers) → IsCrashSafe o.format o.layout o.base o.zeros start log disk history }
{}

/// What the laws ask of an opening can be had: each valid header of this version has one, over each base.
pub fn an_opening_can_be_met()
    ensures { (h : Header) (base : ℕ → Sector) → IsValid h → h.version ≡ this_version
        → (o : Opening) × (o.format ≡ format_of h) × (o.layout ≡ layout_of h) × ((s : ℕ) → o.base s ≡ base s)
        × (log : List Entry) × (m : Memory) × IsAtOpening o log m }
{}
