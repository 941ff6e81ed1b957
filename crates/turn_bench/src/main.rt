//! How long takes of a turn last, on 1 thread and on 32.
#![tactic(auto)]

ghost use Rattle.std.specs.Prelude.{◌≡◌, ◌≤◌, false};
ghost use Rattle.vd_turn.specs.Passes.{Belongs};

use anyhow::Error;
use std::alloc::{AllocError, Global};
use std::sync::Wait;
use std::thread::{Threads, map_vec};
use std::time::Instant;
use vd_turn::{Kept, Turn, TurnPass};

/// What the turn keeps: how often it was taken.
#[derive(Drop)]
pub struct Count {
    pub made: u64,
}

impl Kept for Count {
    ghost use Rattle.std.specs.Prelude.{[]};

    type Entry = ();

    type Part = ();

    type Fixed = ();

    ghost entries = { λ _. [] };

    ghost maker = { λ _. 0 };

    ghost part = { λ _ _. tt };

    ghost fixed = { λ _. tt };

    ghost steps = { λ c. 0 };

    fn length(&self) -> u64 {
        0
    }
}

fn work(
    rt: &impl Wait,
    turn: &Turn<Count>,
    mut pass: TurnPass<Count>,
    times: u64,
) -> TurnPass<Count>
    requires { Belongs ⟦<Count as Kept>⟧ turn.now pass × (pass.holds ≡ false) }
    ensures { (result.number ≡ pass.number) × (result.turn ≡ pass.turn) × (result.holds ≡ false) }
{
    for _ in 0..times {
        let mut held = turn.take(rt, &mut pass);
        let count = held.value_mut();
        count.made = count.made.wrapping_add(1);
        turn.give(held, &mut pass);
    }
    pass
}

fn race<R: Threads + Wait + Sync>(
    rt: &R,
    alloc: Global,
    passes: u32,
    times: u64,
) -> Result<Count, AllocError>
    requires { (1 ≤ passes) × (passes ≤ 64) }
{
    let (turn, passes) = match Turn::new(alloc, Count { made: 0 }, passes) {
        Ok(made) => made,
        Err(refused) => {
            drop(refused.value);
            return Err(AllocError);
        }
    };
    let shared = &turn;
    let passes = map_vec(
        rt,
        passes,
        &|pass: TurnPass<Count>| -> TurnPass<Count>
            requires { (pass.turn ≡ shared.now.id) × (pass.holds ≡ false) }
            ensures { (result.number ≡ pass.number) × (result.turn ≡ shared.entry.now.id) × (result.holds ≡ false) }
        { work(rt, shared, pass, times) },
    )?;
    Ok(turn.close(passes))
}

fn main(rt: HostRuntime) -> Result<(), Error> {
    for (passes, times) in [
        (1u32, 10_000_000u64),
        (1, 10_000_000),
        (32, 1_000_000),
        (32, 1_000_000),
    ] {
        let start = Instant::now(&rt)?;
        let count = race(&rt, rt.alloc(), passes, times)?;
        let took = start.elapsed(&rt)?;
        let ms = took.as_millis();
        eprintln!(rt; "{passes} threads: {} takes in {ms} ms", count.made)?;
    }
    Ok(())
}
