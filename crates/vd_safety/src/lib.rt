//! What a core has to keep so that every image is safe, by its own parts: each step is one that the laws of crash safety know.
//!
//! The functions here do nothing: their contracts are the laws on which a core's proof stands.
#![tactic(auto)]

ghost use Rattle.std.specs.Prelude.{ℕ, ◌≡◌, ◌<◌, ◌≤◌, ◌⊎◌, Bool, List, Option, length};
ghost use Rattle.vd_law.specs.declared.entry.Sector.{Sector};
ghost use Rattle.vd_law.specs.Entries.{Entry};
ghost use Rattle.vd_law.specs.Histories.{HistoryState};
ghost use Rattle.vd_format.specs.declared.header.Header.{Header};
ghost use Rattle.vd_table.specs.Tables.{TableState};
ghost use Rattle.vd_image.specs.Log.{Writes};
ghost use Rattle.vd_image.specs.Layouts.{layout_of};
ghost use Rattle.vd_image.specs.Decoders.{Entry as MapEntry, this_version, format_of};
ghost use Rattle.vd_format.specs.Layouts.{store_need};
ghost use Rattle.vd_crash.specs.facts.CrashSafe.{IsCrashSafe};
ghost use Rattle.vd_keeper.specs.Keeping.{KeeperState};
ghost use Rattle.vd_passes.specs.declared.pass.Pass.{Pass};
ghost use Rattle.vd_safety.specs.Mirrors.{CoreState, opening_for, HasSafeMirror};
ghost use Rattle.vd_safety.specs.Held.{IsHeldNow, IsOpenAgain};
ghost use Rattle.vd_format.specs.Background.{zero_sector, base_at};
ghost use Rattle.vd_machine.specs.Views.{View};
ghost use Rattle.vd_machine.specs.Steps.{IsStep};
ghost use Rattle.vd_machine.specs.Sound.{IsSound};
ghost use Rattle.vd_machine.specs.Telling.{IsFaithfullyKept, LogAgrees};
ghost use Rattle.vd_safety.specs.Safely.{IsSafelyKept, IsSafelyStopped};

use vd_device::{Base, Store};

/// A core that is secured is crash safe, over what its store tells and the history as it is kept.
pub fn secured_is_crash_safe()
    ensures { (h : Header) (entries : List MapEntry) (before : List Sector) (held : ℕ → Sector) (base disk : List Sector) (core : CoreState) (log : List Entry)
        → HasSafeMirror (opening_for h entries before held base disk core.history.opened) core log → length disk ≡ h.size
        → ((i a : ℕ) (v : Sector) → Writes log i a v → a < length before)
        → IsCrashSafe (format_of h) (layout_of h) (base_at zero_sector base) zero_sector before log disk core.history }
{}

/// What the store of a secured core holds, and each image that a crash leaves of it, opens again, with a disk that the history allows.
pub fn secured_image_opens_again()
    ensures { (h : Header) (entries : List MapEntry) (before : List Sector) (held : ℕ → Sector) (base disk : List Sector) (opened : ℕ)
        (core : CoreState) (log : List Entry) (now : List Sector) → HasSafeMirror (opening_for h entries before held base disk opened) core log
        → IsHeldNow before log now → h.version ≡ this_version → store_need h ≤ length now → length disk ≡ h.size
        → IsOpenAgain h base disk core.history.log.entries now }
{}

/// Each step is one that the laws of crash safety know, where the devices tell; and where the store has stopped, its log stands.
pub fn steps_stay_safe<S: Store, B: Base>()
    ensures safe { (i : ℕ) (c c' : View S B) → IsStep S.Store B.Base i c c' → IsSound S.Store B.Base c
        → (S.tells c.store → B.tells c.base → IsFaithfullyKept S.Store B.Base c) → (S.tells c.store → LogAgrees S.Store c)
        → (S.tells c.store → B.tells c.base → IsSafelyKept S.Store B.Base c)
        → S.tells c'.store → B.tells c'.base → IsSafelyKept S.Store B.Base c' }
    ensures stopped { (i : ℕ) (c c' : View S B) → IsStep S.Store B.Base i c c' → IsSound S.Store B.Base c
        → (S.tells c.store → B.tells c.base → IsSafelyKept S.Store B.Base c)
        → (S.records c.store → B.tells c.base → S.tells c.store ⊎ IsSafelyStopped S.Store B.Base c)
        → S.records c'.store → B.tells c'.base → S.tells c'.store ⊎ IsSafelyStopped S.Store B.Base c' }
{}
