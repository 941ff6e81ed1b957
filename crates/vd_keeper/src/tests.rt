//! Flushes of two small images.

ghost use Rattle.std.specs.Prelude.{◌≡◌, ◌⊎◌, ◌<◌, ◌≤◌, ◌+◌, ℕ, length, IfOk, replicate, None};
ghost use Rattle.vd_format.specs.Headers.{IsValid};
ghost use Rattle.vd_format.specs.Layouts.{blocks_of, chunks_of};
ghost use Rattle.vd_keeper.specs.declared.stage.Stage.TheVariants.{Rest, Broken};
ghost use Rattle.vd_keeper.specs.Putting.{IsFull, IsSameImage};
ghost use Rattle.vd_table.specs.Tables.{Has};

use crate::keeper::Keeper;
use crate::stage::{Put, Route, Stage};
use std::alloc::Global;
use std::process::Abort;
use std::test::Fail;
use vd_bits::bits::Bits;
use vd_bits::marked::Marked;
use vd_format::{Header, layout_of, valid};
use vd_law::entry::Sector;
use vd_table::table::Table;

/// 16 blocks in 4 chunks, and 4 slots.
const SMALL: Header = Header {
    version: 2,
    block: 8,
    chunk: 4,
    storage: 4,
    slots: 4,
    size: 128,
    tracked: 96,
    generation: 1,
};

/// 32 blocks in 32 chunks, 2 slots, and the last generation.
const LAST: Header = Header {
    version: 2,
    block: 8,
    chunk: 1,
    storage: 32,
    slots: 2,
    size: 256,
    tracked: 96,
    generation: 9_223_372_036_854_775_807,
};

/// What a flush has put, and whether it has begun.
#[derive(Drop)]
struct Seen {
    begun: bool,
    records: u32,
    pages: u32,
    heads: u32,
    last: Sector,
}

impl Seen {
    fn note(&mut self, put: Put) {
        match put {
            Put::Record { slot: _, sector } => {
                self.records = self.records.wrapping_add(1);
                self.last = sector;
            }
            Put::Page { at: _, sector } => {
                self.pages = self.pages.wrapping_add(1);
                self.last = sector;
            }
            Put::Head { sector } => {
                self.heads = self.heads.wrapping_add(1);
                self.last = sector;
            }
        }
    }
}

/// A table in which each chunk has the storage chunk of its own number.
fn full_table(alloc: Global, header: &Header) -> Result<Table, Fail>
    requires valid { IsValid header.now }
    requires all { chunks_of header.now ≤ header.now.storage }
    ensures { IfOk result (IsFull header.now) }
{
    let chunks = layout_of(header).chunks;
    let mut table = Table::new(alloc, chunks, header.storage)?;
    for chunk in 0..chunks {
        match table.set(chunk, chunk) {
            Ok(()) => {}
            Err(_) => return Err("each has its own".into()),
        }
    }
    Ok(table)
}

/// A keeper of an image with no local block.
fn open(alloc: Global, header: &Header) -> Result<Keeper, Fail>
    requires valid { IsValid header.now }
    requires version { header.now.version ≡ 2 }
    ensures { IfOk result (λ k. k.header ≡ header.now) }
{
    let layout = layout_of(header);
    let stale = Bits::new(alloc, layout.blocks, header.chunk)?;
    let marked = Marked::new(alloc, (u64::from(layout.chunks) + 31) / 32)?;
    Ok(Keeper::new(alloc, header, &stale, marked, 0)?)
}

fn owe(keeper: &mut Keeper, block: u32)
    requires { block < blocks_of keeper.old.header }
    ensures { keeper.new.header ≡ keeper.old.header }
{
    keeper.owe(block);
}

/// Begins a flush, where none is under way.
fn begin(keeper: &mut Keeper, recycle: bool) -> bool
    ensures { keeper.new.header ≡ keeper.old.header }
{
    let tracked = keeper.header().tracked;
    match keeper.stage() {
        Stage::Rest | Stage::Broken => {
            if recycle {
                keeper.begin(Route::Recycle { tracked })
            } else {
                keeper.begin(Route::Owed)
            }
        }
        _ => false,
    }
}

/// One step of a flush, which fails or not.
fn step(keeper: &mut Keeper, table: &Table, ok: bool, seen: &mut Seen)
    requires { IsFull keeper.old.header table.now }
    ensures { IsSameImage keeper.old.header keeper.new.header }
{
    let _header = keeper.header();
    match keeper.stage() {
        Stage::DataFlush | Stage::Syncs => keeper.settled(ok),
        Stage::Puts => {
            if keeper.is_due() {
                let put = keeper.put(table);
                seen.note(put);
                keeper.settled(ok);
            }
        }
        Stage::Seals => keeper.seal(),
        Stage::Rest | Stage::Broken => {}
    }
}

/// A flush whose step with this number fails, from 1.
fn flush(keeper: &mut Keeper, table: &Table, recycle: bool, fails: u32) -> Seen
    requires { IsFull keeper.old.header table.now }
    ensures { IsSameImage keeper.old.header keeper.new.header }
{
    let mut seen = Seen {
        begun: begin(keeper, recycle),
        records: 0,
        pages: 0,
        heads: 0,
        last: Sector::filled(0),
    };
    for turn in 1..12 {
        step(keeper, table, turn != fails, &mut seen);
    }
    seen
}

/// A block is owed and a flush is made: the records, sectors of the map and headers that it put; the cursor and the generation
/// afterwards; and whether the block is owed and stale then.
fn row(
    keeper: &mut Keeper,
    table: &Table,
    block: u32,
    recycle: bool,
    fails: u32,
) -> ((u32, u32, u32), (u32, u64), (bool, bool))
    requires block { block < blocks_of keeper.old.header }
    requires full { IsFull keeper.old.header table.now }
    ensures { IsSameImage keeper.old.header keeper.new.header }
{
    owe(keeper, block);
    let seen = flush(keeper, table, recycle, fails);
    (
        (seen.records, seen.pages, seen.heads),
        (keeper.next_slot(), keeper.header().generation),
        (keeper.is_owed(block), keeper.is_stale(block)),
    )
}

/// The record of the first flush, before its zeros.
const RECORD: [u8; 44] = [
    0x46, 0x56, 0x44, 0x52, 0x45, 0x43, 0x4f, 0x32, 1, 0, 0, 0, 0, 0, 0, 0, 1, 0, 0, 0, 0, 0, 0, 0,
    0, 0, 0, 0, 1, 0, 0, 0, 0, 0, 0, 0, 2, 0, 0, 0, 0, 0, 0, 0,
];

#[test]
fn small_image(rt: HostRuntime) -> Result<(), Fail> {
    assert!(rt; valid(&SMALL));
    let whole = full_table(rt.alloc(), &SMALL)?;
    let table = &whole;
    let mut keeper = open(rt.alloc(), &SMALL)?;
    owe(&mut keeper, 1);
    let seen = flush(&mut keeper, table, false, 0);
    let mut record = Sector::filled(0);
    record.bytes[..44].copy_from_slice(&RECORD);
    assert!(rt; seen.records == 1 && seen.last == record);
    // The block, whether a recycle is asked for, and the step that fails, from 1: the data flush, a put, its flush, the header's put.
    let rows: [(u32, bool, u32, ((u32, u32, u32), (u32, u64), (bool, bool))); 14] = [
        (2, false, 0, ((1, 0, 0), (2, 1), (false, true))),
        (5, false, 0, ((1, 0, 0), (3, 1), (false, true))),
        (9, false, 0, ((1, 0, 0), (4, 1), (false, true))),
        // No slot is left.
        (13, false, 0, ((0, 1, 1), (0, 2), (false, true))),
        // What a failure leaves.
        (14, false, 1, ((0, 0, 0), (0, 2), (true, false))),
        (15, false, 2, ((1, 0, 0), (1, 2), (true, false))),
        (0, false, 3, ((1, 0, 0), (2, 2), (true, false))),
        (4, false, 0, ((1, 0, 0), (3, 2), (false, true))),
        // A page's failed flush, and the page again.
        (6, true, 3, ((0, 1, 0), (3, 2), (true, false))),
        (7, true, 0, ((0, 1, 1), (0, 3), (false, true))),
        (8, false, 0, ((1, 0, 0), (1, 3), (false, true))),
        // A failed header: slots are left, and still the next flush is a recycle.
        (10, true, 4, ((0, 1, 1), (1, 3), (true, false))),
        (11, false, 0, ((0, 1, 1), (0, 4), (false, true))),
        (12, false, 0, ((1, 0, 0), (1, 4), (false, true))),
    ];
    for (block, recycle, fails, told) in &rows {
        assert!(rt; *block < 16);
        assert_eq!(rt; row(&mut keeper, table, *block, *recycle, *fails), *told);
    }
    Ok(())
}

#[test]
fn many_chunks_at_the_last_generation(rt: HostRuntime) -> Result<(), Fail> {
    assert!(rt; valid(&LAST));
    let whole = full_table(rt.alloc(), &LAST)?;
    let table = &whole;
    let mut keeper = open(rt.alloc(), &LAST)?;
    for block in 0..24 {
        owe(&mut keeper, block);
    }
    // 25 chunks, and then no slot and no generation.
    assert_eq!(rt; row(&mut keeper, table, 24, false, 0).0, (2, 0, 0));
    let header = keeper.header();
    owe(&mut keeper, 25);
    let seen = flush(&mut keeper, table, false, 0);
    assert_eq!(rt;
        (seen.begun, seen.records, seen.pages, seen.heads),
        (false, 0, 0, 0)
    );
    assert!(rt; keeper.header() == header && keeper.stage() == Stage::Rest && keeper.is_owed(25));
    Ok(())
}
