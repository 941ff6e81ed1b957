//! What a search of a set and a take of a table cost, on the largest disk and on smaller ones.
#![tactic(auto)]

ghost use Rattle.std.specs.Prelude.{◌≡◌, ◌<◌, ◌^◌, false, Some, length, replicate};

use anyhow::Error;
use std::alloc::AllocError;
use std::time::{CpuClock, Duration};
use vd_bits::marked::Marked;
use vd_table::table::Table;

/// The chunks of a disk of 67,108,864 sectors, with eight sectors to a block and one block to a chunk. It is a multiple
/// of each smaller number of chunks here, and so the calls are as many everywhere.
const CALLS: u32 = 8_388_608;

/// The place that is `step` places on, from the start again past the end.
fn onward(place: u32, step: u32, places: u32) -> u32
    requires place { place < places }
    requires step { step < places }
    ensures { result < places }
{
    let left = places - place;
    if step < left {
        place + step
    } else {
        step - left
    }
}

/// Marks a number in an empty set, finds it as the lowest and takes the mark off again.
fn found(set: &mut Marked, page: u32, pages: u32) -> Option<u64>
    requires inside { page < pages }
    requires empty { set.old ≡ replicate pages false }
    ensures found { result ≡ Some page }
    ensures empty { set.new ≡ replicate pages false }
{
    let page = page as u64;
    set.mark(page);
    let found = set.first();
    set.unmark(page);
    found
}

/// Searches for one number after another, each far from the one before. Their sum is printed, so that no search is left
/// out.
fn search(set: &mut Marked, pages: u32, step: u32) -> u64
    requires step { step < pages }
    requires empty { set.old ≡ replicate pages false }
{
    let mut page = 0;
    let mut sum = 0u64;
    for _ in 0..CALLS {
        page = onward(page, step, pages);
        sum = sum.wrapping_add(found(set, page, pages).unwrap_or(0));
    }
    sum
}

/// Gives a chunk the least free storage chunk.
fn taken(table: &mut Table, chunk: u32) -> u32
    requires { chunk < length table.old.chunks }
    ensures { length table.new.chunks ≡ length table.old.chunks }
{
    match table.get(chunk) {
        None => table.take(chunk).unwrap_or(0),
        Some(p) => p,
    }
}

/// Gives each chunk a storage chunk, one chunk after another, each `step` from the one before.
fn fill(table: &mut Table, chunks: u32, step: u32) -> u64
    requires step { step < chunks }
    requires chunks { length table.old.chunks ≡ chunks }
    ensures { length table.new.chunks ≡ chunks }
{
    let mut chunk = 0;
    let mut sum = 0u64;
    for _ in 0..chunks {
        chunk = onward(chunk, step, chunks);
        sum = sum.wrapping_add(taken(table, chunk) as u64);
    }
    sum
}

/// Fills the table and empties it, until `CALLS` storage chunks were taken.
fn fill_often(table: &mut Table, chunks: u32, step: u32) -> u64
    requires step { step < chunks }
    requires chunks { length table.old.chunks ≡ chunks }
{
    let mut sum = 0u64;
    for _ in 0..CALLS / chunks {
        sum = sum.wrapping_add(fill(table, chunks, step));
        table.reset();
    }
    sum
}

/// The nanoseconds of processor time that a call took, where the calls began and ended at these times.
fn nanoseconds_a_call(began: Duration, ended: Duration) -> f64 {
    ended.saturating_sub(began).as_secs_f64() * 1e9 / f64::from(CALLS)
}

fn bench_search(rt: &HostRuntime, pages: u32, step: u32) -> Result<(), Error>
    requires { step < pages }
{
    let Ok(mut set) = Marked::new(rt.alloc(), pages as u64) else {
        return Err(AllocError.into());
    };
    let began = rt.thread_cpu_time()?;
    let sum = search(&mut set, pages, step);
    let took = nanoseconds_a_call(began, rt.thread_cpu_time()?);
    eprintln!(rt; "mark, first, unmark, {pages} chunks, {step} apart: {took:.1} ns (sum {sum})")?;
    Ok(())
}

fn bench_take(rt: &HostRuntime, chunks: u32, step: u32) -> Result<(), Error>
    requires { step < chunks }
{
    let Ok(mut table) = Table::new(rt.alloc(), chunks, chunks) else {
        return Err(AllocError.into());
    };
    let began = rt.thread_cpu_time()?;
    let sum = fill_often(&mut table, chunks, step);
    let took = nanoseconds_a_call(began, rt.thread_cpu_time()?);
    eprintln!(rt; "take, {chunks} chunks, {step} apart: {took:.1} ns (sum {sum})")?;
    Ok(())
}

fn main(rt: HostRuntime) -> Result<(), Error> {
    for chunks in [4_096, 262_144, CALLS] {
        for step in [1, chunks / 8 * 5 + 1] {
            bench_search(&rt, chunks, step)?;
            bench_take(&rt, chunks, step)?;
        }
    }
    Ok(())
}
