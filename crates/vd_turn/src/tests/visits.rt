//! A list of visits under a turn, and passes that write into it.
ghost use Rattle.std.specs.Prelude.{◌≡◌, ◌≤◌, false, vec_capacity};
ghost use Rattle.vd_turn.specs.Passes.{Belongs};

use crate::{Kept, Turn, TurnPass};
use std::alloc::{AllocError, Global};
use std::sync::Wait;
use std::thread::{Threads, map_vec};

/// Each visit is the number of the pass that made it.
#[derive(Drop)]
pub struct Visits {
    pub made: Vec<u32>,
}

impl Visits {
    ghost use Rattle.vd_turn.specs.Lists.{IsGrownBy};

    pub fn new(alloc: Global, room: u32) -> Result<Visits, AllocError> {
        Ok(Visits {
            made: Vec::with_capacity(alloc, room as usize)?,
        })
    }

    /// False where there is no room.
    pub fn visit(&mut self, by: u32) -> bool
        ensures { IsGrownBy ⟦<Visits as Kept>⟧ by self.old self.new }
    {
        if self.made.len() == self.made.capacity() {
            return false;
        }
        self.made.push_reserved(by);
        true
    }
}

impl Kept for Visits {
    ghost use Rattle.std.specs.Prelude.{length, vec_capacity};

    type Entry = u32;

    type Part = ();

    type Fixed = usize;

    ghost entries = { λ v. v.made.items };

    ghost maker = { λ e. e };

    ghost part = { λ _ _. tt };

    ghost fixed = { λ v. vec_capacity v.made };

    ghost steps = { λ v. length v.made.items };

    fn length(&self) -> u64 {
        self.made.len() as u64
    }
}

fn work(
    rt: &impl Wait,
    turn: &Turn<Visits>,
    mut pass: TurnPass<Visits>,
    times: u32,
) -> TurnPass<Visits>
    requires { Belongs ⟦<Visits as Kept>⟧ turn.now pass × (pass.holds ≡ false) }
    ensures { (result.number ≡ pass.number) × Belongs ⟦<Visits as Kept>⟧ turn.now result × (result.holds ≡ false) }
{
    for _ in 0..times {
        let mut held = turn.take(rt, &mut pass);
        held.value_mut().visit(pass.number());
        turn.give(held, &mut pass);
    }
    pass
}

/// Each pass visits so many times, in a thread of its own.
pub fn race<R: Threads + Wait + Sync>(
    rt: &R,
    alloc: Global,
    list: Visits,
    passes: u32,
    times: u32,
) -> Result<Visits, AllocError>
    requires { (1 ≤ passes) × (passes ≤ 64) }
{
    let (turn, passes) = match Turn::new(alloc, list, passes) {
        Ok(made) => made,
        Err(refused) => {
            drop(refused.value);
            return Err(AllocError);
        }
    };
    let shared = &turn;
    let passes = map_vec(
        rt,
        passes,
        &|pass: TurnPass<Visits>| -> TurnPass<Visits>
            requires { (pass.turn ≡ shared.now.id) × (vec_capacity pass.last.made ≡ vec_capacity shared.now.start.made) × (pass.holds ≡ false) }
            ensures { (result.number ≡ pass.number) × (result.turn ≡ shared.entry.now.id)
                × (vec_capacity result.last.made ≡ vec_capacity shared.entry.now.start.made) × (result.holds ≡ false) }
        { work(rt, shared, pass, times) },
    )?;
    Ok(turn.close(passes))
}
