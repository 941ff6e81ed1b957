//! What flushes leave on a store in memory: the records and the header that they write, how many events each takes, and what
//! a second run, the closing and the reopening find.

use crate::small::{Change, FIVE, Given, NONE, ROOM, RUN, done, ends, image};
use std::alloc::Global;
use std::test::Fail;
use vd_faults::{Keep, Rule};
use vd_law::entry::{Event, Request, Sector};
use vd_log::history::History;
use vd_mem::{MemBase, MemStore};
use vd_top::End;

/// The record of the first whole block, in storage chunk 0 of generation 1: block 1 of chunk 0.
const RECORD: [u8; 44] = [
    0x46, 0x56, 0x44, 0x52, 0x45, 0x43, 0x4f, 0x32, 1, 0, 0, 0, 0, 0, 0, 0, 1, 0, 0, 0, 0, 0, 0, 0,
    0, 0, 0, 0, 1, 0, 0, 0, 0, 0, 0, 0, 2, 0, 0, 0, 0, 0, 0, 0,
];

/// The image in a store of its own size.
fn store_of(alloc: Global, content: Vec<Sector>) -> Result<MemStore, Fail> {
    Ok(MemStore::new(alloc, content, ROOM, Vec::new(alloc))?)
}

/// What a run of this trace leaves of a store, where it prints this text and each reply is Ok.
fn ran(
    alloc: Global,
    trace: &[u8],
    store: MemStore,
    text: &[u8],
) -> Result<Option<End<MemStore, MemBase>>, Fail> {
    let given = Given { trace, ..NONE };
    done(alloc, RUN, store, &given, text, 0)
}

/// How many events of the store each flush of guest 1 took, in order.
fn events_of_flushes(alloc: Global, history: &History) -> Result<Vec<u64>, Fail> {
    let mut taken = Vec::new(alloc);
    let mut asked = None;
    for entry in 0..history.log().len() {
        match history.log().event(entry) {
            Event::Ask {
                id,
                request: Request::Flush,
            } if id.pass == 1 => asked = Some(history.at(entry)),
            Event::Reply { .. } => {
                if let Some(from) = asked {
                    taken.push(history.at(entry).saturating_sub(from))?;
                }
                asked = None;
            }
            _ => {}
        }
    }
    Ok(taken)
}

/// The sector begins with these bytes, and is zeros from there on.
fn begins_with(sector: &Sector, bytes: &[u8]) -> bool {
    let mut wanted = Sector::filled(0);
    for (byte, value) in wanted.bytes.iter_mut().zip(bytes) {
        *byte = *value;
    }
    *sector == wanted
}

#[test]
fn record_of_a_first_write(rt: HostRuntime) -> Result<(), Fail> {
    let alloc = rt.alloc();
    let text =
        b"1.1 ok\n1.2 ok *aa\nclose ok\nreopen ok\nlocal 1 of 12\nsum ok 2 full 0 fault 0 worn 0\n";
    let store = store_of(alloc, image(alloc, 104, &[])?)?;
    let Some(end) = ran(alloc, b"1 W 8 8 aa\n1 R 8 1\n", store, text)? else {
        panic!(rt; "another report");
    };
    let held = end.store.held();
    let written = Sector::filled(0xaa);
    let empty = Sector::filled(0);
    assert!(rt;
        held.get(4)
            .is_some_and(|record| begins_with(record, &RECORD))
    );
    assert!(rt;
        held.iter()
            .skip(16)
            .take(8)
            .all(|sector| *sector == written)
    );
    assert!(rt; held.iter().skip(5).take(11).all(|sector| *sector == empty));

    // the next run finds what this one made durable
    let text =
        b"1.1 ok *aa *10\nclose ok\nreopen ok\nshow 15 *aa *10\nlocal 1 of 12\nsum ok 1 full 0 fault 0 worn 0\n";
    assert!(rt; ran(alloc, b"1 R 15 2\nS 15 2\n", end.store, text)?.is_some());
    Ok(())
}

/// The events that each flush of a run took, and the generation that its image has then.
fn flushed(
    alloc: Global,
    end: Option<End<MemStore, MemBase>>,
) -> Result<Option<(Vec<u64>, u8)>, Fail> {
    let Some(End { store, history, .. }) = end else {
        return Ok(None);
    };
    match (history, store.held().first()) {
        (Some(history), Some(header)) => {
            let generation = header.bytes[48];
            Ok(Some((events_of_flushes(alloc, &history)?, generation)))
        }
        _ => Ok(None),
    }
}

#[test]
fn fifth_flush_over_four_slots_recycles(rt: HostRuntime) -> Result<(), Fail> {
    let alloc = rt.alloc();
    let text =
        b"1.1 ok\n1.2 ok\n1.3 ok\n1.4 ok\n1.5 ok\n1.6 ok\n1.7 ok\n1.8 ok\n1.9 ok\n1.10 ok\nclose ok\nreopen ok\nlocal 5 of 12\nsum ok 10 full 0 fault 0 worn 0\n";
    let store = store_of(alloc, image(alloc, 104, &[])?)?;
    let end = ran(alloc, FIVE, store, text)?;
    let Some((taken, generation)) = flushed(alloc, end)? else {
        panic!(rt; "another report");
    };
    assert_eq!(rt; taken.as_slice(), [6, 6, 6, 6, 10].as_slice());
    assert_eq!(rt; generation, 2);
    Ok(())
}

#[test]
fn every_other_flush_over_one_slot_recycles(rt: HostRuntime) -> Result<(), Fail> {
    let alloc = rt.alloc();
    let store = store_of(alloc, vec![in alloc; Sector::filled(0xff); 101]?)?;
    let words = "make K P 128 8 4 3 1";
    let Some(made) = done(alloc, words, store, &NONE, b"made 101\n", 0)? else {
        panic!(rt; "not made");
    };
    let trace = b"1 W 0 8 01\n1 F\n1 W 8 8 02\n1 F\n1 W 16 8 03\n1 F\n1 W 24 8 04\n1 F\n";
    let text =
        b"1.1 ok\n1.2 ok\n1.3 ok\n1.4 ok\n1.5 ok\n1.6 ok\n1.7 ok\n1.8 ok\nclose ok\nreopen ok\nlocal 4 of 12\nsum ok 8 full 0 fault 0 worn 0\n";
    let end = ran(alloc, trace, made.store, text)?;
    let Some((taken, generation)) = flushed(alloc, end)? else {
        panic!(rt; "another report");
    };
    assert_eq!(rt; taken.as_slice(), [6, 10, 6, 10].as_slice());
    assert_eq!(rt; generation, 3);
    Ok(())
}

/// The last generation: its slots can be used, and not recycled.
const LAST: [Change; 8] = [
    (0, 48, 0xff),
    (0, 49, 0xff),
    (0, 50, 0xff),
    (0, 51, 0xff),
    (0, 52, 0xff),
    (0, 53, 0xff),
    (0, 54, 0xff),
    (0, 55, 0x7f),
];

#[test]
fn worn_and_failed(rt: HostRuntime) -> Result<(), Fail> {
    let alloc = rt.alloc();
    let mut trace = FIVE.to_vec(alloc)?;
    trace.extend_from_slice(b"S 32 1\n")?;
    let given = Given {
        trace: trace.as_slice(),
        ..NONE
    };
    let text =
        b"1.1 ok\n1.2 ok\n1.3 ok\n1.4 ok\n1.5 ok\n1.6 ok\n1.7 ok\n1.8 ok\n1.9 ok\n1.10 worn 9223372036854775807\nclose worn 9223372036854775807\nreopen ok\nshow 32 *20\nlocal 4 of 12\nsum ok 9 full 0 fault 0 worn 1\n";
    assert!(rt; ends(alloc, RUN, image(alloc, 104, &LAST)?, &given, text, 1)?);
    Ok(())
}

const FIRST: &[Rule] = &[Rule::FailNth {
    nth: 1,
    keep: Keep::Old,
}];

const FIFTH: &[Rule] = &[Rule::FailNth {
    nth: 5,
    keep: Keep::Old,
}];

const SIXTH: &[Rule] = &[Rule::FailNth {
    nth: 6,
    keep: Keep::Old,
}];

/// A trace, the calls of the store and of the base and the writes of the sink that fail, and the text. The opening takes four tickets
/// of the store, the closing of nothing one, and each reopening four. A sink that fails changes the text alone.
const FAILED: [(&[u8], &[Rule], &[Rule], &[u64], &[u8]); 4] = [
    (
        b"",
        FIFTH,
        &[],
        &[],
        b"close store fault 5\nreopen ok\nlocal 0 of 12\nsum ok 0 full 0 fault 0 worn 0\n",
    ),
    (
        b"S 0 1\n",
        SIXTH,
        &[],
        &[],
        b"close ok\nreopen store fault 6\nsum ok 0 full 0 fault 0 worn 0\n",
    ),
    (
        b"S 95 1\nS 94 1\n",
        &[],
        FIRST,
        &[],
        b"close ok\nreopen ok\nshow 95 base fault 1\nshow 94 *5e\nlocal 0 of 12\nsum ok 0 full 0 fault 0 worn 0\n",
    ),
    (b"S 95 1\n", &[], FIRST, &[2], b"close ok\n"),
];

#[test]
fn devices_that_fail_behind_the_last_request(rt: HostRuntime) -> Result<(), Fail> {
    let alloc = rt.alloc();
    for (trace, store, under, sink, text) in &FAILED {
        let given = Given {
            trace,
            store,
            base: under,
            sink,
            ..NONE
        };
        assert!(rt; ends(alloc, RUN, image(alloc, 104, &[])?, &given, text, 5)?);
    }
    Ok(())
}
