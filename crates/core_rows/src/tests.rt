//! Small runs of a core over devices in memory: what is written is read, and the neighbours come from the base.

ghost use Rattle.std.specs.Prelude.{◌≡◌, ℕ, ◌+◌, ◌*◌, ◌<◌, ◌≤◌, IfOk, true, length};
ghost use Rattle.vd_passes.specs.declared.pass.Phase.TheVariants.{Idle};
ghost use Rattle.vd_passes.specs.Steps.{IsAt};

use crate::calls::{asks_write, end_write, kept_out, read, write};
use std::alloc::Global;
use std::process::Abort;
use std::test::Fail;
use vd_core::{Closed, Core, Unopened};
use vd_device::{Base, Store};
use vd_faults::{Keep, Rule};
use vd_format::{Header, valid, write_header};
use vd_law::entry::{Answer, NoMemory, Room, Sector};
use vd_mem::{MemBase, MemStore};
use vd_passes::pass::Phase;
use vd_replay::recover;

/// A disk of 128 sectors, 96 of them tracked, in blocks of 8 and chunks of 4 blocks, with 3 storage chunks and 4 slots.
const SMALL: Header = Header {
    version: 2,
    block: 8,
    chunk: 4,
    storage: 3,
    slots: 4,
    size: 128,
    tracked: 96,
    generation: 1,
};

/// A base of 96 sectors, each filled with its number.
fn base(alloc: Global) -> Result<Vec<Sector>, Fail> {
    let mut content = Vec::new(alloc);
    for byte in 0..96u8 {
        content.push(Sector::filled(byte))?;
    }
    Ok(content)
}

/// Room for more than any of these runs takes.
const ROOM: Room = Room {
    events: 100,
    sectors: 200,
};

/// A new image of the small disk.
fn image(rt: &impl Abort, alloc: Global) -> Result<Vec<Sector>, Fail> {
    assert!(rt; valid(&SMALL));
    let mut content = vec![in alloc; Sector::filled(0); 104]?;
    if let Some(first) = content.first_mut() {
        *first = write_header(&SMALL);
    }
    Ok(content)
}

/// Whether the disk is of 128 sectors, in blocks of 8.
fn is_small(header: &Header) -> bool
    ensures { result ≡ true → (header.now.block ≡ 8) × (header.now.size ≡ 128) }
{
    header.block == 8 && header.size == 128
}

/// A core with so many passes over a new image and its base, which fail by these rules, with so much room in the history. Opening
/// the image takes four tickets of the store.
fn opened(
    rt: &impl Abort,
    alloc: Global,
    passes: u32,
    room: Room,
    store_rules: &[Rule],
    base_rules: &[Rule],
) -> Result<Core<MemStore, MemBase>, Fail>
    requires some { 0 < passes }
    requires most { passes ≤ 64 }
    ensures size { IfOk result (λ core. core.shape.block * core.shape.blocks ≡ 128) }
    ensures passes { IfOk result (λ core. length core.passes ≡ passes) }
    ensures idle { IfOk result (λ core. (pass : ℕ) → pass < passes → IsAt core.passes pass (λ p. p.phase ≡ Idle)) }
{
    let mut store = MemStore::new(alloc, image(rt, alloc)?, ROOM, store_rules.to_vec(alloc)?)?;
    let base = MemBase::new(base(alloc)?, base_rules.to_vec(alloc)?);
    assert_eq!(rt; (store.in_flight(), base.in_flight()), (0, 0));
    let state = match recover(alloc, &mut store, 2) {
        Ok(state) => state,
        Err(_) => panic!(rt; "no image"),
    };
    if !is_small(&state.header) {
        panic!(rt; "another disk");
    }
    match Core::new(alloc, store, base, state, passes, room) {
        Ok(core) => Ok(core),
        Err(Unopened { store: _, base: _ }) => Err(NoMemory.into()),
    }
}

/// Fills each sector with the byte at its place.
fn fill(sectors: &mut [Sector], bytes: &[u8])
    ensures { length sectors.new ≡ length sectors.old }
{
    for (sector, byte) in sectors.iter_mut().zip(bytes) {
        *sector = Sector::filled(*byte);
    }
}

/// A call, what it is answered, and the bytes that fill its sectors: those that it writes, or those that it sees.
#[derive(Clone, Copy, Drop)]
struct Call {
    write: bool,
    first: u64,
    bytes: &'static [u8],
    answer: Answer,
}

const fn write_of(first: u64, bytes: &'static [u8], answer: Answer) -> Call {
    Call {
        write: true,
        first,
        bytes,
        answer,
    }
}

const fn read_of(first: u64, bytes: &'static [u8]) -> Call {
    Call {
        write: false,
        first,
        bytes,
        answer: Answer::Ok,
    }
}

/// Whether a write of this content is answered so.
fn is_written<S: Store, B: Base>(
    rt: &impl Abort,
    core: &mut Core<S, B>,
    call: &Call,
    content: &[Sector],
) -> bool
    requires idle { IsAt core.old.passes 0 (λ p. p.phase ≡ Idle) }
    requires some { 0 < length content.now }
    requires most { length content.now ≤ 8 }
    requires inside { call.now.first + length content.now ≤ core.old.shape.block * core.old.shape.blocks }
    ensures idle { IsAt core.new.passes 0 (λ p. p.phase ≡ Idle) }
    ensures shape { core.new.shape ≡ core.old.shape }
    ensures passes { length core.new.passes ≡ length core.old.passes }
{
    match write(core, 0, call.first, content) {
        Some(answer) => answer == call.answer,
        None => panic!(rt; "no reply"),
    }
}

/// Whether a read of as many sectors is answered so, and sees these.
fn is_seen<S: Store, B: Base>(
    rt: &impl Abort,
    core: &mut Core<S, B>,
    call: &Call,
    content: &[Sector],
) -> bool
    requires idle { IsAt core.old.passes 0 (λ p. p.phase ≡ Idle) }
    requires some { 0 < length content.now }
    requires most { length content.now ≤ 8 }
    requires inside { call.now.first + length content.now ≤ core.old.shape.block * core.old.shape.blocks }
    ensures idle { IsAt core.new.passes 0 (λ p. p.phase ≡ Idle) }
    ensures shape { core.new.shape ≡ core.old.shape }
    ensures passes { length core.new.passes ≡ length core.old.passes }
{
    let mut sectors = [Sector::filled(0xee); 8];
    let out = &mut sectors[..content.len()];
    match read(core, 0, call.first, out) {
        Some(answer) => answer == call.answer && *out == *content,
        None => panic!(rt; "no reply"),
    }
}

/// Whether the call is answered so, and a read sees these bytes.
fn ends_so<S: Store, B: Base>(rt: &impl Abort, core: &mut Core<S, B>, call: &Call) -> bool
    requires idle { IsAt core.old.passes 0 (λ p. p.phase ≡ Idle) }
    requires size { core.old.shape.block * core.old.shape.blocks ≡ 128 }
    ensures idle { IsAt core.new.passes 0 (λ p. p.phase ≡ Idle) }
    ensures shape { core.new.shape ≡ core.old.shape }
    ensures passes { length core.new.passes ≡ length core.old.passes }
{
    let count = call.bytes.len();
    assert!(rt; 0 < count && count <= 8 && call.first <= 120);
    let mut told = [Sector::filled(0); 8];
    fill(&mut told, call.bytes);
    if call.write {
        is_written(rt, core, call, &told[..count])
    } else {
        is_seen(rt, core, call, &told[..count])
    }
}

/// Whether all calls end so, on a disk whose devices fail by these rules.
fn runs(
    rt: &impl Abort,
    alloc: Global,
    store_rules: &[Rule],
    base_rules: &[Rule],
    calls: &[Call],
) -> Result<bool, Fail> {
    let mut core = opened(rt, alloc, 1, ROOM, store_rules, base_rules)?;
    let mut same = true;
    for call in calls {
        same = ends_so(rt, &mut core, call) && same;
    }
    let Closed {
        store: _,
        base: _,
        history,
        state: _,
    } = core.finish();
    Ok(same && history.log().len() > 0)
}

const FULL: Answer = Answer::Full { needed: 1, free: 0 };

const BASE_FAULT: Answer = Answer::BaseFault { ticket: 1, done: 0 };

const STORE_FAULT: Answer = Answer::StoreFault { ticket: 6, done: 0 };

#[test]
fn writes_and_reads_of_one_pass(rt: HostRuntime) -> Result<(), Fail> {
    let alloc = rt.alloc();
    let whole = [
        write_of(8, &[0xaa; 8], Answer::Ok),
        read_of(8, &[0xaa, 0xaa]),
        read_of(16, &[0x10]),
    ];
    let partial = [write_of(10, &[0xbb], Answer::Ok), read_of(9, &[9, 0xbb])];
    let full = [
        write_of(0, &[0x11], Answer::Ok),
        write_of(32, &[0x22], Answer::Ok),
        write_of(64, &[0x33], Answer::Ok),
        write_of(96, &[0x44], FULL),
        read_of(96, &[0]),
    ];
    assert!(rt; runs(&rt, alloc, &[], &[], &whole)?);
    assert!(rt; runs(&rt, alloc, &[], &[], &partial)?);
    assert!(rt; runs(&rt, alloc, &[], &[], &full)?);
    Ok(())
}

#[test]
fn a_base_that_fails_once(rt: HostRuntime) -> Result<(), Fail> {
    let first_read = [Rule::FailNth {
        nth: 1,
        keep: Keep::Old,
    }];
    let calls = [
        write_of(10, &[0xbb], BASE_FAULT),
        read_of(8, &[8, 9, 10]),
        write_of(10, &[0xbb], Answer::Ok),
        read_of(10, &[0xbb]),
    ];
    assert!(rt; runs(&rt, rt.alloc(), &[], &first_read, &calls)?);
    Ok(())
}

/// The second write of a sector of the storage fails.
fn second_write_fails(keep: Keep) -> [Rule; 1] {
    [Rule::FailAt {
        sector: 16,
        nth: 2,
        keep,
    }]
}

#[test]
fn a_store_that_fails_once(rt: HostRuntime) -> Result<(), Fail> {
    let alloc = rt.alloc();
    let kept = [
        write_of(8, &[0xaa; 8], Answer::Ok),
        write_of(8, &[0xbb], STORE_FAULT),
        read_of(8, &[0xaa]),
        read_of(8, &[0xaa]),
    ];
    let changed = [
        write_of(8, &[0xaa; 8], Answer::Ok),
        write_of(8, &[0xbb], STORE_FAULT),
        read_of(8, &[0xbb]),
        read_of(8, &[0xbb]),
    ];
    assert!(rt; runs(&rt, alloc, &second_write_fails(Keep::Old), &[], &kept)?);
    assert!(rt; runs(&rt, alloc, &second_write_fails(Keep::New), &[], &changed)?);
    Ok(())
}

/// Takes a core with three passes apart, all of which are idle.
fn close(rt: &impl Abort, core: Core<MemStore, MemBase>)
    requires { length core.passes ≡ 3 }
{
    let (Phase::Idle, Phase::Idle, Phase::Idle) = (core.phase(0), core.phase(1), core.phase(2))
    else {
        panic!(rt; "a pass is busy");
    };
    let Closed {
        store: _,
        base: _,
        history: _,
        state: _,
    } = core.finish();
}

/// Two passes ask a write of one sector. While the first has the block the second is kept out; then both are served, and a
/// read sees what the second wrote.
#[test]
fn two_writers_of_one_sector(rt: HostRuntime) -> Result<(), Fail> {
    let alloc = rt.alloc();
    let mut core = opened(&rt, alloc, 3, ROOM, &[], &[])?;
    let first = [Sector::filled(0x11)];
    let second = [Sector::filled(0x22)];
    if !asks_write(&mut core, 1, &first) {
        panic!(&rt; "the first isn't asked");
    }
    if !asks_write(&mut core, 2, &second) {
        panic!(&rt; "the second isn't asked");
    }
    let by = kept_out(&mut core, 1);
    assert!(rt; by.is_none());
    let by = kept_out(&mut core, 2);
    assert!(rt; by == Some(1));
    match end_write(&mut core, 1, &first) {
        Some(answer) => assert!(rt; answer == Answer::Ok),
        None => panic!(&rt; "no reply"),
    }
    match end_write(&mut core, 2, &second) {
        Some(answer) => assert!(rt; answer == Answer::Ok),
        None => panic!(&rt; "no reply"),
    }
    let mut seen = [Sector::filled(0)];
    match read(&mut core, 1, 8, &mut seen) {
        Some(answer) => assert!(rt; answer == Answer::Ok),
        None => panic!(&rt; "no reply"),
    }
    assert!(rt; seen == second);
    close(&rt, core);
    Ok(())
}

/// A write of one sector needs four events and two sectors. In less room it is not asked, and the history stays empty.
#[test]
fn writes_without_room(rt: HostRuntime) -> Result<(), Fail> {
    let alloc = rt.alloc();
    let room = Room {
        events: 2,
        sectors: 0,
    };
    let mut core = opened(&rt, alloc, 1, room, &[], &[])?;
    match write(&mut core, 0, 8, &[Sector::filled(1)]) {
        Some(answer) => {
            assert!(rt;
                answer
                    == Answer::NoRoom {
                        events: 2,
                        sectors: 0
                    }
            );
        }
        None => panic!(&rt; "no reply"),
    }
    let Closed {
        store: _,
        base: _,
        history,
        state: _,
    } = core.finish();
    assert!(rt; history.log().len() == 0);
    Ok(())
}
