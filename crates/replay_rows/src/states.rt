//! What opening such an image answers, and what its state says.

ghost use Rattle.vd_replay.specs.States.{IsSized};

use crate::images::{Change, store_of};
use std::alloc::Global;
use std::test::Fail;
use vd_device::Store;
use vd_format::layout_of;
use vd_replay::{OpenError, State, recover};

/// What a state says of the first four chunks, the first sector of the map that differs, and the cursor.
#[derive(Clone, Copy, PartialEq, Eq, Drop)]
pub struct Says {
    pub storage: [Option<u32>; 4],
    pub masks: [u64; 4],
    pub more: Option<u64>,
    pub next: u32,
}

fn storage_of(state: &State, chunk: u32) -> Option<u32>
    requires { IsSized state.now }
{
    if chunk < layout_of(&state.header).chunks {
        state.table.get(chunk)
    } else {
        None
    }
}

fn mask_of(state: &State, chunk: u32) -> u64
    requires { IsSized state.now }
{
    let first = u64::from(chunk) * u64::from(state.header.chunk);
    if first < u64::from(layout_of(&state.header).blocks) {
        state.fresh.mask(chunk)
    } else {
        0
    }
}

pub fn said(state: &State) -> Says
    requires { IsSized state.now }
{
    Says {
        storage: [
            storage_of(state, 0),
            storage_of(state, 1),
            storage_of(state, 2),
            storage_of(state, 3),
        ],
        masks: [
            mask_of(state, 0),
            mask_of(state, 1),
            mask_of(state, 2),
            mask_of(state, 3),
        ],
        more: state.more.first(),
        next: state.cursor.next,
    }
}

pub fn opened(
    alloc: Global,
    sectors: usize,
    oldest: u32,
    fail: u64,
    changes: &[Change],
) -> Result<Result<Says, OpenError>, Fail> {
    let mut store = store_of(alloc, sectors, fail, changes)?;
    if store.in_flight() != 0 {
        return Ok(Err(OpenError::NoMemory));
    }
    let oldest = if oldest == 1 { 1 } else { 2 };
    Ok(match recover(alloc, &mut store, oldest) {
        Ok(state) => Ok(said(&state)),
        Err(e) => Err(e),
    })
}

pub const NEW: Says = Says {
    storage: [None; 4],
    masks: [0; 4],
    more: None,
    next: 0,
};
