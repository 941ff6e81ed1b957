//! Calls of a core, each driven step by step, for the tests.

ghost use Rattle.std.specs.Prelude.{◌≡◌, ◌≢◌, ℕ, ◌+◌, ◌*◌, ◌<◌, ◌≤◌, IfSome, true, false, List, length, slice_get};
ghost use Rattle.vd_law.specs.declared.entry.Sector.{Sector as AnySector};
ghost use Rattle.vd_passes.specs.declared.pass.Phase.TheVariants.{Idle, Asked};
ghost use Rattle.vd_passes.specs.Steps.{IsAt, HasAskedWrite};

use vd_core::{Core, Step};
use vd_device::{Base, Store};
use vd_drive::{Reader, Writer};
use vd_law::entry::{Answer, Request, Sector};

/// Writes by an idle pass, in at most 64 steps.
pub(crate) fn write<S: Store, B: Base>(
    core: &mut Core<S, B>,
    pass: u32,
    first: u64,
    content: &[Sector],
) -> Option<Answer>
    requires idle { IsAt core.old.passes pass (λ p. p.phase ≡ Idle) }
    requires some { 0 < length content.now }
    requires most { length content.now ≤ 2048 }
    requires inside { first + length content.now ≤ core.old.shape.block * core.old.shape.blocks }
    ensures idle { IfSome result (λ answer. IsAt core.new.passes pass (λ p. p.phase ≡ Idle)) }
    ensures shape { core.new.shape ≡ core.old.shape }
    ensures passes { length core.new.passes ≡ length core.old.passes }
{
    if let Some(answer) = core.ask(pass, Request::Write { first, content }) {
        return Some(answer);
    }
    for _ in 0..64 {
        match Writer::next(core, pass, content) {
            Step::Ended(answer) => return Some(answer),
            Step::Again | Step::Late | Step::Busy { .. } => {}
        }
    }
    None
}

/// Reads by an idle pass, in at most 64 steps.
pub(crate) fn read<S: Store, B: Base>(
    core: &mut Core<S, B>,
    pass: u32,
    first: u64,
    out: &mut [Sector],
) -> Option<Answer>
    requires idle { IsAt core.old.passes pass (λ p. p.phase ≡ Idle) }
    requires some { 0 < length out.old }
    requires most { length out.old ≤ 2048 }
    requires inside { first + length out.old ≤ core.old.shape.block * core.old.shape.blocks }
    ensures idle { IfSome result (λ answer. IsAt core.new.passes pass (λ p. p.phase ≡ Idle)) }
    ensures shape { core.new.shape ≡ core.old.shape }
    ensures passes { length core.new.passes ≡ length core.old.passes }
{
    let count = out.len() as u64;
    if let Some(answer) = core.ask(pass, Request::Read { first, count }) {
        return Some(answer);
    }
    for _ in 0..64 {
        match Reader::next(core, pass, out) {
            Step::Ended(answer) => return Some(answer),
            Step::Again | Step::Late | Step::Busy { .. } => {}
        }
    }
    None
}

/// Ends the write of a pass, in at most 64 steps. What other passes have asked stays.
pub(crate) fn end_write<S: Store, B: Base>(
    core: &mut Core<S, B>,
    pass: u32,
    content: &[Sector],
) -> Option<Answer>
    requires busy { IsAt core.old.passes pass (λ p. (p.phase ≢ Idle) × (p.write ≡ true) × (p.flush ≡ false) × (p.count ≡ length content.now)) }
    requires asked { HasAskedWrite core.old.history.log.entries pass content.now }
    ensures idle { IfSome result (λ answer. IsAt core.new.passes pass (λ p. p.phase ≡ Idle)) }
    ensures shape { core.new.shape ≡ core.old.shape }
    ensures passes { length core.new.passes ≡ length core.old.passes }
    ensures others { (other : ℕ) → other ≢ pass → slice_get core.new.passes other ≡ slice_get core.old.passes other }
    ensures asked { (other : ℕ) (said : List AnySector) →
        HasAskedWrite core.old.history.log.entries other said → HasAskedWrite core.new.history.log.entries other said }
{
    for _ in 0..64 {
        match Writer::next(core, pass, content) {
            Step::Ended(answer) => return Some(answer),
            Step::Again | Step::Late | Step::Busy { .. } => {}
        }
    }
    None
}

/// Asks a write of one sector by an idle pass. Whether it was asked. What other passes have and have asked stays.
pub(crate) fn asks_write<S: Store, B: Base>(
    core: &mut Core<S, B>,
    pass: u32,
    content: &[Sector],
) -> bool
    requires idle { IsAt core.old.passes pass (λ p. p.phase ≡ Idle) }
    requires one { length content.now ≡ 1 }
    requires size { core.old.shape.block * core.old.shape.blocks ≡ 128 }
    ensures asked { result ≡ true → IsAt core.new.passes pass (λ p. (p.phase ≡ Asked) × (p.write ≡ true) × (p.flush ≡ false) × (p.count ≡ 1)) }
    ensures content { result ≡ true → HasAskedWrite core.new.history.log.entries pass content.now }
    ensures shape { core.new.shape ≡ core.old.shape }
    ensures passes { length core.new.passes ≡ length core.old.passes }
    ensures others { (other : ℕ) → other ≢ pass → slice_get core.new.passes other ≡ slice_get core.old.passes other }
    ensures said { (other : ℕ) (said : List AnySector) → other ≢ pass →
        HasAskedWrite core.old.history.log.entries other said → HasAskedWrite core.new.history.log.entries other said }
{
    match core.ask(pass, Request::Write { first: 8, content }) {
        None => true,
        Some(_) => false,
    }
}

/// Lets a pass that has asked a write enter its block. The pass that keeps it out, if one does.
pub(crate) fn kept_out<S: Store, B: Base>(core: &mut Core<S, B>, pass: u32) -> Option<u32>
    requires asked { IsAt core.old.passes pass (λ p. (p.phase ≡ Asked) × (p.write ≡ true) × (p.flush ≡ false) × (p.count ≡ 1)) }
    ensures busy { IsAt core.new.passes pass (λ p. (p.phase ≢ Idle) × (p.write ≡ true) × (p.flush ≡ false) × (p.count ≡ 1)) }
    ensures shape { core.new.shape ≡ core.old.shape }
    ensures passes { length core.new.passes ≡ length core.old.passes }
    ensures others { (other : ℕ) → other ≢ pass → slice_get core.new.passes other ≡ slice_get core.old.passes other }
    ensures history { core.new.history ≡ core.old.history }
{
    match core.enter(pass) {
        Ok(()) => None,
        Err(busy) => Some(busy.by),
    }
}
