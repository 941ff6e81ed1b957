//! Reading the guest's disk by a state.

ghost use Rattle.std.specs.Prelude.{ℕ, ◌≡◌, ◌+◌, ◌^◌, ◌<◌, ◌≤◌, [], length, IfErr, IsTrue, OnOk};
ghost use Rattle.vd_device.specs.Quiet.{IsReady, OnlyReads, OnlyReadsBase, IsFault, IsStoreFault};
ghost use Rattle.vd_format.specs.Headers.{IsValid};
ghost use Rattle.vd_image.specs.Layouts.{layout_of as places};
ghost use Rattle.vd_replay.specs.States.{IsSized, IsReadable, StateSays};
ghost use Rattle.vd_replay.specs.Disks.{IsSource, IsStorageAt, source_further_on, IsNear, FitsInTicket, ReadRun, AreDiskSectors, ForDevice, ForSource, HasLocal, HasOfBase, NeedsBase, Spares, AsksOwn};
ghost use Rattle.vd_format.specs.Background.{count_in_base};

use crate::background::read_background;
use crate::state::State;
use vd_device::{Base, Store, read_only, sectors_at_rest};
use vd_format::zeros::clear;
use vd_format::{Header, layout_of, place_of_block};
use vd_law::entry::Sector;

/// A device failed the ticket of this number.
#[derive(Clone, Copy, PartialEq, Eq, Drop)]
pub enum DiskFault {
    Store(u64),
    Base(u64),
}

/// Where a sector of the guest's disk comes from.
#[derive(Clone, Copy, PartialEq, Eq, Drop)]
pub enum Source {
    /// This sector of the store.
    Local(u64),
    /// The base below `tracked`, zeros from there on.
    Background,
    Zeros,
}

impl Source {
    /// The source of the sector `by` places on, where both come from one device at neighbouring places.
    fn further(self, by: u64) -> Source
        requires near { IsNear self }
        requires few { by < 2 ^ 32 }
        ensures { result ≡ source_further_on self by }
    {
        match self {
            Source::Local(at) => Source::Local(at + by),
            other => other,
        }
    }
}

/// Where sector `sector` of the guest's disk stands in storage chunk `p`.
fn place(header: &Header, storage_at: u64, p: u32, sector: u64) -> u64
    requires valid { IsValid header.now }
    requires storage { IsStorageAt header.now storage_at }
    requires inside { p < header.now.storage }
    ensures place { result ≡ (places header.now).place p sector }
    ensures near { result < 2 ^ 32 }
{
    let block = u64::from(header.block);
    place_of_block(
        storage_at,
        u64::from(header.chunk),
        block,
        p,
        sector / block,
    ) + sector % block
}

/// Where this sector of the guest's disk comes from.
fn source_of(state: &State, storage_at: u64, sector: u64) -> Source
    requires sized { IsSized state.now }
    requires storage { IsStorageAt state.now.header storage_at }
    requires inside { sector < state.now.header.size }
    ensures source { IsSource state.now sector result }
    ensures near { IsNear result }
{
    let header = &state.header;
    let block = (sector / u64::from(header.block)) as u32;
    let chunk = block / header.chunk;
    if state.fresh.get(block) {
        if let Some(p) = state.table.get(chunk) {
            return Source::Local(place(header, storage_at, p, sector));
        }
    }
    if state.map.get(chunk).zeros {
        Source::Zeros
    } else {
        Source::Background
    }
}

/// Whether this sector comes from there.
fn comes_from(state: &State, storage_at: u64, source: Source, sector: u64) -> bool
    requires sized { IsSized state.now }
    requires storage { IsStorageAt state.now.header storage_at }
    requires inside { sector < state.now.header.size }
    ensures { IsTrue result → IsSource state.now sector source }
{
    source_of(state, storage_at, sector) == source
}

/// How many sectors from `first` on, at most `most`, come from one device at neighbouring places.
fn run_from(state: &State, storage_at: u64, source: Source, first: u64, most: u64) -> u64
    requires sized { IsSized state.now }
    requires storage { IsStorageAt state.now.header storage_at }
    requires source { IsSource state.now first source }
    requires near { IsNear source }
    requires some { 0 < most }
    requires few { most ≤ 2048 }
    requires inside { first + most ≤ state.now.header.size }
    ensures some { 0 < result }
    ensures most { result ≤ most }
    ensures run { (i : ℕ) → i < result → IsSource state.now (first + i) (source_further_on source i) }
{
    for count in 1..most {
        if !comes_from(state, storage_at, source.further(count), first + count) {
            return count;
        }
    }
    most
}

/// Fills `out` with the sectors from `first` on, which come from one source, by at most one ticket. A device from which
/// the source doesn't read is left alone.
fn read_run<S: Store, B: Base>(
    store: &mut S,
    base: &mut B,
    source: Source,
    tracked: u64,
    first: u64,
    out: &mut [Sector],
) -> Result<(), DiskFault>
    requires ready { IsReady S.Store store.old }
    requires base { B.flight base.old [] }
    requires inside { FitsInTicket source (length out.old) (S.sectors store.old) }
    ensures fault { IfErr result (ForSource source (IsStoreFault S.Store store.old store.new) (IsFault B.Base base.old base.new)) }
    ensures needed { IfErr result (NeedsBase (count_in_base (B.sectors base.old) tracked first (length out.old))) }
    ensures spared { Spares source (count_in_base (B.sectors base.old) tracked first (length out.old)) (store.new ≡ store.old) (base.new ≡ base.old) }
    ensures quiet { OnlyReads S.Store store.old store.new }
    ensures base_quiet { OnlyReadsBase B.Base base.old base.new }
    ensures size { length out.new ≡ length out.old }
    ensures read { OnOk result (S.tells store.new → B.tells base.new → ReadRun (S.disk store.new).held (B.content base.new) tracked source first out.new) }
{
    match source {
        Source::Local(at) => match read_only(store, at, out) {
            Ok(()) => Ok(()),
            Err(ticket) => Err(DiskFault::Store(ticket)),
        },
        Source::Background => match read_background(base, tracked, first, out) {
            Ok(()) => Ok(()),
            Err(ticket) => Err(DiskFault::Base(ticket)),
        },
        Source::Zeros => {
            clear(out);
            Ok(())
        }
    }
}

/// Fills `out` with the sectors of the guest's disk from `first` on: a local block's from its storage, else the base's below
/// `tracked`, else zeros. There is one ticket for each run of neighbouring sectors that come from one device at
/// neighbouring places, of at most 2,048 sectors each, and a device that has no sector of the range is left alone. The first
/// failed ticket ends it; where the store tells and the ticket is its own, that call ended in its log by a Reply that isn't Ok.
pub fn read_disk<S: Store, B: Base>(
    store: &mut S,
    base: &mut B,
    state: &State,
    first: u64,
    out: &mut [Sector],
) -> Result<(), DiskFault>
    requires store { S.flight store.old [] }
    requires base { B.flight base.old [] }
    requires readable { IsReadable (S.sectors store.old) state.now }
    requires range { first + length out.old ≤ state.now.header.size }
    ensures fault { IfErr result (ForDevice (IsStoreFault S.Store store.old store.new) (IsFault B.Base base.old base.new)) }
    ensures asks { AsksOwn (HasLocal state.now first (length out.old)) (HasOfBase state.now (B.sectors base.old) first (length out.old)) result
        store.old store.new base.old base.new }
    ensures quiet { OnlyReads S.Store store.old store.new }
    ensures base_quiet { OnlyReadsBase B.Base base.old base.new }
    ensures size { length out.new ≡ length out.old }
    ensures read { OnOk result (S.tells store.new → B.tells base.new → StateSays (S.disk store.new).held state.now
        → AreDiskSectors (S.disk store.new).held (B.content base.new) state.now first out.new) }
{
    let _sectors = sectors_at_rest(store);
    let storage_at = layout_of(&state.header).storage_at;
    let mut done = 0;
    while done < out.len() {
        let at = first + done as u64;
        let source = source_of(state, storage_at, at);
        let most = (out.len() - done).min(2048) as u64;
        let count = run_from(state, storage_at, source, at, most) as usize;
        read_run(
            store,
            base,
            source,
            state.header.tracked,
            at,
            &mut out[done..done + count],
        )?;
        done += count;
    }
    Ok(())
}
