//! Why a history has the answers that it has: laws of what a core keeps so that each has its cause.
//!
//! The functions here do nothing: their contracts are the laws. What each step of a core keeps are the lemmas of proofs/.
#![tactic(auto)]

ghost use Rattle.std.specs.Prelude.{ℕ, ◌≡◌, [], List, Some, slice_get};
ghost use Rattle.vd_law.specs.Entries.{Entry};
ghost use Rattle.vd_keeper.specs.Keeping.{KeeperState};
ghost use Rattle.vd_passes.specs.declared.pass.Pass.{Pass};
ghost use Rattle.vd_passes.specs.declared.pass.Phase.TheVariants.{Idle};
ghost use Rattle.vd_passes.specs.Requests.{RequestState};
ghost use Rattle.vd_machine.specs.Views.{View};
ghost use Rattle.vd_machine.specs.Steps.{IsStep};
ghost use Rattle.vd_machine.specs.Sound.{IsSound};
ghost use Rattle.vd_machine.specs.Telling.{LogAgrees};
ghost use Rattle.vd_causes.specs.Wearing.{AreWornsCaused, RisesAddUp};
ghost use Rattle.vd_causes.specs.Accounts.{IsAccounted};

use vd_device::{Base, Store};

/// A core that is made, with no entry and all passes idle, keeps what `RisesAddUp` says, from the generation that its header has then.
pub fn new_core_adds_up()
    ensures { (k : KeeperState) (r : RequestState) → r.entries ≡ [] → ((i : ℕ) (p : Pass) → slice_get r.passes i ≡ Some p → p.phase ≡ Idle)
        → RisesAddUp k.header.generation k r }
{}

/// Where it is kept, each Worn has its cause: it carries the last generation, which the generation at opening and the flushes that
/// other calls asked before it reach.
pub fn worns_are_caused()
    ensures { (at_opening : ℕ) (k : KeeperState) (r : RequestState) → RisesAddUp at_opening k r → AreWornsCaused at_opening r.entries }
{}

/// Each step accounts for what it answers.
pub fn steps_account_for_answers<S: Store, B: Base>()
    ensures accounted { (i : ℕ) (c c' : View S B) → IsStep S.Store B.Base i c c' → IsSound S.Store B.Base c
        → IsAccounted S.Store B.Base c → IsAccounted S.Store B.Base c' }
    ensures logged { (i : ℕ) (c c' : View S B) → IsStep S.Store B.Base i c c' → IsSound S.Store B.Base c
        → (S.tells c.store → LogAgrees S.Store c) → S.tells c'.store → LogAgrees S.Store c' }
{}
