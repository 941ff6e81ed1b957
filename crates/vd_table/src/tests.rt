//! Tables of a few chunks, and the largest one.

ghost use Rattle.std.specs.Prelude.{◌≡◌, ◌+◌, ◌<◌, ◌≤◌, length, IfOk};

use crate::table::{Full, Table, Taken};
use std::alloc::Global;
use std::process::Abort;
use std::test::Fail;

fn take(table: &mut Table, chunk: u32) -> Option<Result<u32, Full>>
    requires { chunk < length table.old.chunks }
    ensures chunks { length table.new.chunks ≡ length table.old.chunks }
    ensures storage { table.new.storage ≡ table.old.storage }
{
    match table.get(chunk) {
        None => Some(table.take(chunk)),
        Some(_) => None,
    }
}

fn set(table: &mut Table, chunk: u32, p: u32) -> Result<(), Taken>
    requires chunk { chunk < length table.old.chunks }
    requires storage { p < table.old.storage }
    ensures chunks { length table.new.chunks ≡ length table.old.chunks }
    ensures storage { table.new.storage ≡ table.old.storage }
{
    table.set(chunk, p)
}

/// Three of four chunks take the three storage chunks.
fn taken_by_three(alloc: Global) -> Result<(Table, [Option<Result<u32, Full>>; 3]), Fail>
    ensures chunks { IfOk result (λ made. length made.0.chunks ≡ 4) }
    ensures storage { IfOk result (λ made. made.0.storage ≡ 3) }
{
    let mut table = Table::new(alloc, 4, 3)?;
    let given = [
        take(&mut table, 2),
        take(&mut table, 0),
        take(&mut table, 3),
    ];
    Ok((table, given))
}

#[test]
fn four_chunks_on_three(rt: HostRuntime) -> Result<(), Fail> {
    let (mut table, given) = taken_by_three(rt.alloc())?;
    assert_eq!(rt; given, [Some(Ok(0)), Some(Ok(1)), Some(Ok(2))]);
    assert_eq!(rt; take(&mut table, 1), Some(Err(Full { used: 3 })));
    assert_eq!(rt;
        (table.get(1), table.get(3), table.free()),
        (None, Some(2), 0)
    );
    table.reset();
    assert_eq!(rt;
        (
            set(&mut table, 2, 1),
            take(&mut table, 0),
            take(&mut table, 1)
        ),
        (Ok(()), Some(Ok(0)), Some(Ok(2)))
    );
    Ok(())
}

#[test]
fn a_chunk_is_set_where_no_other_lies(rt: HostRuntime) -> Result<(), Fail> {
    let (mut table, _) = taken_by_three(rt.alloc())?;
    let lower = [
        set(&mut table, 1, 2),
        set(&mut table, 3, 0),
        set(&mut table, 0, 0),
        set(&mut table, 2, 0),
    ];
    assert_eq!(rt;
        lower,
        [
            Err(Taken { by: 3 }),
            Err(Taken { by: 2 }),
            Err(Taken { by: 0 }),
            Ok(())
        ]
    );
    assert_eq!(rt;
        (table.get(1), table.get(3), table.free()),
        (None, Some(2), 0)
    );
    Ok(())
}

// What the run lacked, as an error where that is more than is free.
fn take_run(table: &mut Table, from: u32, count: u32) -> Result<u32, u32>
    requires { from + count ≤ length table.old.chunks }
    ensures chunks { length table.new.chunks ≡ length table.old.chunks }
    ensures storage { table.new.storage ≡ table.old.storage }
{
    let lacking = table.lacking(from, count);
    if lacking > table.free() {
        return Err(lacking);
    }
    table.take_run(from, count);
    Ok(lacking)
}

#[test]
fn runs_of_five_chunks_on_four(rt: HostRuntime) -> Result<(), Fail> {
    let mut table = Table::new(rt.alloc(), 5, 4)?;
    assert_eq!(rt; set(&mut table, 1, 0), Ok(()));
    let lacking = [
        take_run(&mut table, 0, 3),
        take_run(&mut table, 0, 3),
        take_run(&mut table, 3, 2),
        take_run(&mut table, 2, 2),
        take_run(&mut table, 5, 0),
        take_run(&mut table, 0, 5),
    ];
    assert_eq!(rt; lacking, [Ok(2), Ok(0), Err(2), Ok(1), Ok(0), Err(1)]);
    assert_eq!(rt;
        [
            table.get(0),
            table.get(1),
            table.get(2),
            table.get(3),
            table.get(4)
        ],
        [Some(1), Some(0), Some(2), Some(3), None]
    );
    table.reset();
    assert_eq!(rt; take_run(&mut table, 1, 4), Ok(4));
    assert_eq!(rt;
        (table.get(0), table.get(1), table.get(4), table.free()),
        (None, Some(0), Some(3), 0)
    );
    Ok(())
}

fn last_chunk(rt: &impl Abort, alloc: Global, chunks: u32) -> Result<(), Fail>
    requires { 1 < chunks }
{
    let mut table = Table::new(alloc, chunks, chunks)?;
    assert_eq!(rt; set(&mut table, 0, chunks - 1), Ok(()));
    assert_eq!(rt;
        (take(&mut table, chunks - 1), table.free()),
        (Some(Ok(0)), chunks - 2)
    );
    Ok(())
}

#[test]
fn largest_disk(rt: HostRuntime) -> Result<(), Fail> {
    last_chunk(&rt, rt.alloc(), 8_388_608)
}
