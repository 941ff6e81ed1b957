//! What a core keeps of its passes, their history and its devices: each step of it keeps it, and where the devices tell, each read has
//! seen what could stand there.
//!
//! The functions here do nothing: their contracts are the laws on which a core's proof stands.
#![tactic(auto)]

ghost use Rattle.std.specs.Prelude.{ℕ};
ghost use Rattle.vd_passes.specs.Coherent.{IsCoherent};
ghost use Rattle.vd_machine.specs.Views.{View, view_requests, view_places};
ghost use Rattle.vd_machine.specs.Steps.{IsStep};
ghost use Rattle.vd_machine.specs.Sound.{IsSince, RoomIsReserved, IsStorage, IsSound};
ghost use Rattle.vd_machine.specs.Telling.{IsFaithfullyKept};

use vd_device::{Base, Store};

/// Each step keeps that the passes, their history and the tickets in flight agree, that the devices go on, and that the room in the
/// history and the storage suffice.
pub fn steps_stay_coherent<S: Store, B: Base>()
    ensures since { (i : ℕ) (c c' : View S B) → IsStep S.Store B.Base i c c' → IsSound S.Store B.Base c → IsSince S.Store B.Base c' }
    ensures coherent { (i : ℕ) (c c' : View S B) → IsStep S.Store B.Base i c c' → IsSound S.Store B.Base c
        → IsCoherent S.Store B.Base (view_requests c') (view_places c') c'.store c'.base }
    ensures room { (i : ℕ) (c c' : View S B) → IsStep S.Store B.Base i c c' → IsSound S.Store B.Base c → RoomIsReserved S.Store c' }
    ensures storage { (i : ℕ) (c c' : View S B) → IsStep S.Store B.Base i c c' → IsSound S.Store B.Base c → IsStorage S.Store c' }
{}

/// Where the devices tell, each step keeps that each read has seen what could stand there, and that the store agrees with the history.
pub fn steps_stay_faithful<S: Store, B: Base>()
    ensures { (i : ℕ) (c c' : View S B) → IsStep S.Store B.Base i c c' → IsSound S.Store B.Base c
        → (S.tells c.store → B.tells c.base → IsFaithfullyKept S.Store B.Base c)
        → S.tells c'.store → B.tells c'.base → IsFaithfullyKept S.Store B.Base c' }
{}
