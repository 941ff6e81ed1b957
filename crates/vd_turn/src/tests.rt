//! Passes that take turns, on one thread and on several.
mod visits;

use crate::Turn;
use std::test::Fail;
use visits::{Visits, race};

#[test]
fn each_pass_on_a_thread_of_its_own_makes_its_visits(rt: HostRuntime) -> Result<(), Fail> {
    for (passes, times) in [(1u32, 3u32), (2, 1000), (64, 50)] {
        let list = Visits::new(rt.alloc(), 4000)?;
        let list = race(&rt, rt.alloc(), list, passes, times)?;
        for number in 0..passes {
            let made = list.made.iter().filter(|by| **by == number).count();
            assert_eq!(rt; made, times as usize, "pass {number} of {passes}");
        }
    }
    Ok(())
}

#[test]
fn held_turn_is_not_taken(rt: HostRuntime) -> Result<(), Fail> {
    let list = Visits::new(rt.alloc(), 4)?;
    let (turn, mut passes) = match Turn::new(rt.alloc(), list, 2) {
        Ok(made) => made,
        Err(refused) => {
            drop(refused.value);
            panic!(&rt; "there is memory");
        }
    };
    let mut second = passes.pop().expect(&rt, "two passes");
    let mut first = passes.pop().expect(&rt, "two passes");
    let mut held = turn.try_take(&mut first).expect(&rt, "the turn is free");
    if let Some(also) = turn.try_take(&mut second) {
        turn.give(also, &mut second);
        panic!(&rt; "the turn is held");
    }
    assert!(rt; held.value_mut().visit(first.number()));
    turn.give(held, &mut first);
    let held = turn
        .try_take(&mut second)
        .expect(&rt, "the turn is free again");
    assert_eq!(rt; held.value().made.as_slice(), [0].as_slice());
    turn.give(held, &mut second);
    Ok(())
}
