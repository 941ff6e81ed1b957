//! A state that is read again from an image with some bytes changed.

ghost use Rattle.vd_replay.specs.States.{IsSized};

use crate::images::{Change, OLD, store_of};
use crate::states::{Says, said};
use std::alloc::Global;
use std::test::Fail;
use vd_device::Store;
use vd_replay::{OpenError, State, recover};

/// Reads a state again from an image with these changes.
fn read_again(
    alloc: Global,
    state: &mut State,
    changes: &[Change],
) -> Result<Option<OpenError>, Fail>
    requires { IsSized state.old }
    ensures { IsSized state.new }
{
    let mut store = store_of(alloc, 104, 0, changes)?;
    if store.in_flight() != 0 {
        return Ok(Some(OpenError::NoMemory));
    }
    Ok(state.reload(&mut store).err())
}

/// Changes, and the error of a reading of the state again.
const AGAIN: [(&'static [Change<'static>], Option<OpenError>); 4] = [
    (
        &[Change::Byte(0, 20, 2), Change::Byte(0, 24, 3)],
        Some(OpenError::Changed { field: 4 }),
    ),
    (
        &[OLD, Change::Byte(0, 20, 2)],
        Some(OpenError::Changed { field: 9 }),
    ),
    (
        &[Change::Entry(2, [0, 0, 1])],
        Some(OpenError::BadEntry { chunk: 2, value: 0 }),
    ),
    // The generation may be another.
    (
        &[Change::Byte(0, 48, 7), Change::Record(0, 7, &[[3, 2, 9]])],
        None,
    ),
];

#[test]
fn reloads(rt: HostRuntime) -> Result<(), Fail> {
    let mut store = store_of(rt.alloc(), 104, 0, &[])?;
    let flying = store.in_flight();
    assert!(rt; flying == 0);
    let made = recover(rt.alloc(), &mut store, 2);
    assert!(rt; made.is_ok());
    let Ok(mut state) = made else {
        return Ok(());
    };
    assert!(rt; !state.is_void());
    for (changes, error) in &AGAIN {
        assert!(rt; read_again(rt.alloc(), &mut state, changes)? == *error);
        assert!(rt; state.is_void() == error.is_some());
    }
    let says = Says {
        storage: [None, None, None, Some(1)],
        masks: [0, 0, 0, 9],
        more: Some(0),
        next: 1,
    };
    assert!(rt; said(&state) == says);
    Ok(())
}
