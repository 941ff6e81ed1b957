//! What crashes leave of a run: each image opens, and each sector has what the last flush or a later write gave it.

use crate::small::{FIVE, Given, NONE, ROOM, RUN, base, did, image};
use std::alloc::Global;
use std::test::Fail;
use vd_device::{Store, write_now};
use vd_faults::{ByList, Chooser, Kept, Lost, Mixed};
use vd_law::entry::Event;
use vd_mem::{Fuse, MemStore};

/// The events of an opening: a flush, and reads of the header, the map and the slots.
const OPENING: u64 = 8;

/// Runs a trace on the small image, on a store that stops after so many events.
fn cut_off(alloc: Global, trace: &[u8], events: u64) -> Result<Option<MemStore>, Fail> {
    let content = image(alloc, 104, &[])?;
    let Ok(store) = MemStore::new(alloc, content, ROOM, Vec::new(alloc)) else {
        return Ok(None);
    };
    let given = Given { trace, ..NONE };
    match did(alloc, RUN, Fuse::new(store, events), base(alloc)?, &given)? {
        Some(left) => Ok(Some(left.end.store.into_inner())),
        None => Ok(None),
    }
}

/// Whether a sector of what a crash leaves is shown as one of these two texts.
fn shows<C: Chooser>(
    alloc: Global,
    store: MemStore,
    chooser: &mut C,
    words: &str,
    texts: &[&[u8]],
) -> Result<bool, Fail> {
    match did(alloc, words, store.crash(chooser), base(alloc)?, &NONE)? {
        Some(left) => Ok(texts.iter().any(|it| *it == left.text.as_slice())),
        None => Ok(false),
    }
}

#[test]
fn unflushed_write_leaves_four_outcomes(rt: HostRuntime) -> Result<(), Fail> {
    let alloc = rt.alloc();
    let trace = b"1 W 8 8 aa\n1 F\n1 W 8 2 bb\n";
    let rows: [(u64, u64, &[u8]); 4] = [
        (0, 0, b"show 8 *aa *aa *aa\n"),
        (0, 1, b"show 8 *aa *bb *aa\n"),
        (1, 0, b"show 8 *bb *aa *aa\n"),
        (1, 1, b"show 8 *bb *bb *aa\n"),
    ];
    for (first, second, text) in &rows {
        let Some(store) = cut_off(alloc, trace, OPENING + 2 + 6 + 2)? else {
            panic!(rt; "no store");
        };
        let mut pairs = Vec::new(alloc);
        pairs.push((16, *first))?;
        pairs.push((17, *second))?;
        assert!(rt;
            shows(
                alloc,
                store,
                &mut ByList::new(pairs),
                "show I P 8 3",
                &[*text]
            )?
        );
    }
    Ok(())
}

/// The flushed sectors are there in an image that a crash leaves after so many events.
fn keeps_four<C: Chooser>(
    alloc: Global,
    events: u64,
    chooser: &mut C,
    last: &[&[u8]],
) -> Result<bool, Fail> {
    let rows: [(&str, &[u8]); 4] = [
        ("show I P 0 1", b"show 0 *01\n"),
        ("show I P 8 1", b"show 8 *02\n"),
        ("show I P 16 1", b"show 16 *03\n"),
        ("show I P 24 1", b"show 24 *04\n"),
    ];
    let mut all = true;
    for (words, text) in &rows {
        let Some(store) = cut_off(alloc, FIVE, events)? else {
            return Ok(false);
        };
        all &= shows(alloc, store, chooser, words, &[*text])?;
    }
    let Some(store) = cut_off(alloc, FIVE, events)? else {
        return Ok(false);
    };
    Ok(all && shows(alloc, store, chooser, "show I P 32 1", last)?)
}

#[test]
fn recycle_keeps_what_was_flushed_at_each_moment(rt: HostRuntime) -> Result<(), Fail> {
    let alloc = rt.alloc();
    let fourth = OPENING + 4 * (2 + 6);
    let fifth = fourth + 2 + 10;
    let open: [&[u8]; 2] = [b"show 32 *20\n", b"show 32 *05\n"];
    for events in fourth..fifth + 1 {
        let last = if events < fifth {
            &open[..]
        } else {
            &open[1..]
        };
        assert!(rt; keeps_four(alloc, events, &mut Lost, last)?, "{events}");
        assert!(rt; keeps_four(alloc, events, &mut Kept, last)?, "{events}");
        for number in 0..8 {
            assert!(rt;
                keeps_four(alloc, events, &mut Mixed::new(number), last)?,
                "{events}"
            );
        }
    }
    Ok(())
}

/// The same writes on a store whose flushes do nothing.
fn without_flushes(alloc: Global, store: &MemStore) -> Result<Option<MemStore>, Fail> {
    let Ok(mut other) = MemStore::new(alloc, store.start().to_vec(alloc)?, ROOM, Vec::new(alloc))
    else {
        return Ok(None);
    };
    for at in 0..store.log().len() {
        if let Event::Issue {
            id: _,
            first,
            content,
        } = store.log().event(at)
        {
            let count = content.len() as u64;
            let sectors = other.sectors();
            if count > 0
                && count <= 2048
                && first < sectors
                && count <= sectors - first
                && other.in_flight() == 0
            {
                let _ = write_now(&mut other, first, content);
            }
        }
    }
    Ok(Some(other))
}

#[test]
fn store_whose_flushes_do_nothing_loses_what_was_flushed(rt: HostRuntime) -> Result<(), Fail> {
    let alloc = rt.alloc();
    let flushed = OPENING + 2 + 6;
    let Some(store) = cut_off(alloc, b"1 W 8 8 aa\n1 F\n", flushed)? else {
        panic!(rt; "no store");
    };
    let Some(other) = without_flushes(alloc, &store)? else {
        panic!(rt; "no store");
    };
    assert!(rt; shows(alloc, store, &mut Lost, "show I P 8 1", &[b"show 8 *aa\n"])?);
    assert!(rt; shows(alloc, other, &mut Lost, "show I P 8 1", &[b"show 8 *08\n"])?);
    Ok(())
}
