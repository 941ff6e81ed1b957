//! Images that don't open: each row is an image with some bytes changed, its sectors, the oldest version that opens, and the error.

use crate::images::{Change, OLD};
use crate::states::{NEW, opened};
use std::alloc::Global;
use std::process::Abort;
use std::test::Fail;
use vd_format::HeaderError;
use vd_replay::OpenError;

type Row = (&'static [Change<'static>], usize, u32, OpenError);

fn are_refused(rt: &impl Abort, alloc: Global, rows: &[Row]) -> Result<(), Fail> {
    for (changes, sectors, oldest, error) in rows {
        assert!(rt; opened(alloc, *sectors, *oldest, 0, changes)? == Err(*error));
    }
    Ok(())
}

const HEADERS: [Row; 5] = [
    (&[], 0, 1, OpenError::TooSmall { need: 1, have: 0 }),
    (
        &[],
        103,
        1,
        OpenError::TooSmall {
            need: 104,
            have: 103,
        },
    ),
    (
        &[Change::Byte(0, 48, 0)],
        104,
        1,
        OpenError::Header(HeaderError::Field(7)),
    ),
    (&[OLD], 104, 2, OpenError::OldVersion),
    (&[OLD, Change::Byte(1, 0, 1)], 104, 1, OpenError::NotBuilt),
];

const ENTRIES: [Row; 5] = [
    (
        &[Change::Entry(0, [0, 2, 0])],
        104,
        2,
        OpenError::BadEntry { chunk: 0, value: 0 },
    ),
    // Before the record, which is bad too.
    (
        &[Change::Entry(3, [4, 0, 1]), Change::Record(0, 1, &[])],
        104,
        2,
        OpenError::BadEntry { chunk: 3, value: 4 },
    ),
    (
        &[Change::Record(0, 1, &[])],
        104,
        2,
        OpenError::BadRecord { slot: 0 },
    ),
    (
        &[Change::Entry(0, [1, 0, 1]), Change::Entry(1, [1, 0, 1])],
        104,
        2,
        OpenError::DoubleChunk { a: 0, b: 1 },
    ),
    // By the facts of two records.
    (
        &[
            Change::Record(0, 1, &[[0, 1, 1]]),
            Change::Record(3, 1, &[[1, 1, 1]]),
        ],
        104,
        2,
        OpenError::DoubleChunk { a: 0, b: 1 },
    ),
];

#[test]
fn refused_headers(rt: HostRuntime) -> Result<(), Fail> {
    are_refused(&rt, rt.alloc(), &HEADERS)
}

#[test]
fn refused_entries(rt: HostRuntime) -> Result<(), Fail> {
    are_refused(&rt, rt.alloc(), &ENTRIES)
}

/// There are four tickets: a flush, and reads of the header, the map and the slots.
#[test]
fn refused_by_the_store(rt: HostRuntime) -> Result<(), Fail> {
    for nth in 1..5 {
        assert!(rt; opened(rt.alloc(), 104, 2, nth, &[])? == Err(OpenError::Store(nth)));
    }
    assert!(rt; opened(rt.alloc(), 104, 2, 5, &[])? == Ok(NEW));
    Ok(())
}
