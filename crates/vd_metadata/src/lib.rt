//! What a core keeps of its metadata: the keeper and the pass that flushes are attended to by each step.
//!
//! The function here does nothing: its contract is the law on which a core's proof stands.
#![tactic(auto)]

ghost use Rattle.std.specs.Prelude.{ℕ};
ghost use Rattle.vd_machine.specs.Views.{View};
ghost use Rattle.vd_machine.specs.Steps.{IsStep};
ghost use Rattle.vd_machine.specs.Sound.{MetadataAgrees, IsSound};

use vd_device::{Base, Store};

/// Each step keeps that the keeper is one of this disk, that what it logs is local, and that a flush is under way exactly where a pass
/// flushes.
pub fn steps_attend_to_metadata<S: Store, B: Base>()
    ensures { (i : ℕ) (c c' : View S B) → IsStep S.Store B.Base i c c' → IsSound S.Store B.Base c → MetadataAgrees c' }
{}
