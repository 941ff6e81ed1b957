//! The guest's disk, as it is read by a state.

use crate::images::{Change, store_of};
use std::alloc::Global;
use std::test::Fail;
use vd_device::{Base, Store};
use vd_faults::{Keep, Rule};
use vd_law::entry::Sector;
use vd_mem::MemBase;
use vd_replay::{DiskFault, read_disk, recover};

/// The first bytes of six sectors of the disk from `first` on, or the fault.
fn shown(
    alloc: Global,
    first: u64,
    fail: u64,
    base_fails: u64,
) -> Result<Result<[u8; 6], DiskFault>, Fail> {
    // Block 5 is local, in the first storage chunk.
    let changes = [Change::Entry(1, [1, 0, 2]), Change::Byte(16, 0, 7)];
    let mut store = store_of(alloc, 104, fail, &changes)?;
    let mut content = Vec::new(alloc);
    for byte in 0..96u8 {
        content.push(Sector::filled(byte))?;
    }
    let mut rules = Vec::new(alloc);
    rules.push(Rule::FailNth {
        nth: base_fails,
        keep: Keep::Old,
    })?;
    let mut base = MemBase::new(content, rules);
    if store.in_flight() != 0 || base.in_flight() != 0 {
        return Ok(Ok([0; 6]));
    }
    let Ok(state) = recover(alloc, &mut store, 2) else {
        return Ok(Ok([0; 6]));
    };
    let mut out = [Sector::filled(9); 6];
    if first > 64 * 1024 || first + 6 > state.header.size {
        return Ok(Ok([0; 6]));
    }
    match read_disk(&mut store, &mut base, &state, first, &mut out) {
        Ok(()) => Ok(Ok([
            out[0].bytes[0],
            out[1].bytes[0],
            out[2].bytes[0],
            out[3].bytes[0],
            out[4].bytes[0],
            out[5].bytes[0],
        ])),
        Err(e) => Ok(Err(e)),
    }
}

#[test]
fn disks(rt: HostRuntime) -> Result<(), Fail> {
    let rows: [(u64, u64, u64, Result<[u8; 6], DiskFault>); 7] = [
        (38, 0, 0, Ok([38, 39, 7, 0, 0, 0])),
        (46, 0, 0, Ok([0, 0, 48, 49, 50, 51])),
        (93, 0, 0, Ok([93, 94, 95, 0, 0, 0])),
        (96, 0, 1, Ok([0, 0, 0, 0, 0, 0])),
        // A local block alone, while the base is away.
        (40, 0, 1, Ok([7, 0, 0, 0, 0, 0])),
        // One ticket of the base, and then the fifth of the store.
        (38, 5, 2, Err(DiskFault::Store(5))),
        (38, 0, 1, Err(DiskFault::Base(1))),
    ];
    for (first, fail, base_fails, says) in &rows {
        assert!(rt; shown(rt.alloc(), *first, *fail, *base_fails)? == *says);
    }
    Ok(())
}
