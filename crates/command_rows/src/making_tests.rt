//! Images made in memory, on stores that fail and that stop, and what crashes leave of them.

use crate::small::{Given, HEADER, NONE, ROOM, done, words_of};
use std::alloc::Global;
use std::test::Fail;
use vd_device::Store;
use vd_faults::{Chooser, Keep, Kept, Lost, Mixed, Rule};
use vd_law::entry::{Event, Sector};
use vd_mem::{Fuse, MemStore};
use vd_top::store_sectors;

const SMALL: &str = "make I P 128 8 4 3 4";

/// The same with as many slots as there may be: its zeros take three tickets.
const LONG: &str = "make I P 128 8 4 3 4096";

/// A store in which each sector is filled with ff.
fn old_store(alloc: Global, sectors: usize, rules: &[Rule]) -> Result<MemStore, Fail> {
    let content = vec![in alloc; Sector::filled(0xff); sectors]?;
    Ok(MemStore::new(alloc, content, ROOM, rules.to_vec(alloc)?)?)
}

/// What the words leave of a store, where they print this text with this status, and nothing fails.
fn left<S: Store + Drop>(
    alloc: Global,
    words: &str,
    store: S,
    text: &[u8],
    status: u8,
) -> Result<Option<S>, Fail> {
    match done(alloc, words, store, &NONE, text, status)? {
        Some(end) => Ok(Some(end.store)),
        None => Ok(None),
    }
}

/// The sectors begin with the header of the small image, but for this number of slots, and then zeros up to the storage.
fn is_new(sectors: &[Sector], slots: u16) -> bool {
    let mut header = Sector::filled(0);
    for (byte, value) in header.bytes.iter_mut().zip(&HEADER) {
        *byte = *value;
    }
    let [low, high] = slots.to_le_bytes();
    header.bytes[24] = low;
    header.bytes[25] = high;
    match sectors {
        [first, rest @ ..] => {
            *first == header
                && rest
                    .iter()
                    .take(3 + slots as usize)
                    .all(|sector| *sector == Sector::filled(0))
        }
        [] => false,
    }
}

/// On a store of so many sectors the words are answered so.
const ANSWERS: [(&str, usize, &[u8], u8); 7] = [
    (SMALL, 104, b"made 104\n", 0),
    (SMALL, 105, b"made 104\n", 0),
    (SMALL, 103, b"too small 104 103\n", 3),
    (SMALL, 0, b"too small 104 0\n", 3),
    ("make I P 67108872 8 4 3 4", 104, b"bad words\n", 2),
    ("make I P 128 8 4 5 4", 104, b"bad words\n", 2),
    ("make J Q 131072 128 16 64 64", 131_141, b"made 131141\n", 0),
];

#[test]
fn images_and_refusals(rt: HostRuntime) -> Result<(), Fail> {
    let alloc = rt.alloc();
    for (words, sectors, text, status) in &ANSWERS {
        let store = old_store(alloc, *sectors, &[])?;
        assert!(rt;
            left(alloc, words, store, text, *status)?.is_some(),
            "{words}"
        );
    }
    Ok(())
}

#[test]
fn bytes_of_a_new_image(rt: HostRuntime) -> Result<(), Fail> {
    let alloc = rt.alloc();
    let old = old_store(alloc, 105, &[])?;
    let Some(store) = left(alloc, SMALL, old, b"made 104\n", 0)? else {
        panic!(rt; "not made");
    };
    assert!(rt; is_new(store.held(), 4));
    let full = Sector::filled(0xff);
    assert!(rt; store.held().iter().skip(8).all(|sector| *sector == full));
    let Some(store) = left(alloc, "show I P 95 2", store, b"show 95 *5f *00\n", 0)? else {
        panic!(rt; "not shown");
    };

    // an image is made anew over another, also where nothing of it can be told
    let given = Given { sink: &[1], ..NONE };
    let Some(end) = done(alloc, SMALL, store, &given, b"", 6)? else {
        panic!(rt; "not made");
    };
    assert!(rt; is_new(end.store.held(), 4));
    Ok(())
}

/// How many sectors each write has, in order.
fn written(alloc: Global, store: &MemStore) -> Result<Vec<usize>, Fail> {
    let mut sizes = Vec::new(alloc);
    for i in 0..store.log().len() {
        if let Event::Issue { content, .. } = store.log().event(i) {
            sizes.push(content.len())?;
        }
    }
    Ok(sizes)
}

#[test]
fn zeros_are_written_in_large_tickets(rt: HostRuntime) -> Result<(), Fail> {
    let alloc = rt.alloc();
    let old = old_store(alloc, 4196, &[])?;
    let Some(store) = left(alloc, LONG, old, b"made 4196\n", 0)? else {
        panic!(rt; "not made");
    };
    assert!(rt; is_new(store.held(), 4096));
    assert!(rt; written(alloc, &store)?.as_slice() == [1, 2048, 2048, 3, 1].as_slice());
    Ok(())
}

/// Shows two sectors of what a crash leaves, and tells whether it is no image or the new one.
fn is_whole_or_none<C: Chooser>(
    alloc: Global,
    store: MemStore,
    chooser: &mut C,
) -> Result<bool, Fail> {
    let crashed = store.crash(chooser);
    let (text, status): (&[u8], u8) = if is_new(crashed.start(), 4) {
        (b"show 95 *5f *00\n", 0)
    } else {
        (b"not image\n", 3)
    };
    Ok(left(alloc, "show I P 95 2", crashed, text, status)?.is_some())
}

/// Makes an image over sectors filled with ff, up to so many events of the store, and crashes.
fn cut_off<C: Chooser>(
    alloc: Global,
    events: u64,
    rules: &[Rule],
    text: &[u8],
    status: u8,
    chooser: &mut C,
) -> Result<bool, Fail> {
    let store = Fuse::new(old_store(alloc, 104, rules)?, events);
    match left(alloc, SMALL, store, text, status)? {
        Some(fuse) => is_whole_or_none(alloc, fuse.into_inner(), chooser),
        None => Ok(false),
    }
}

/// The same for each of many choosers.
fn cut_off_each(
    alloc: Global,
    events: u64,
    rules: &[Rule],
    text: &[u8],
    status: u8,
) -> Result<bool, Fail> {
    let mut whole = cut_off(alloc, events, rules, text, status, &mut Lost)?;
    whole &= cut_off(alloc, events, rules, text, status, &mut Kept)?;
    for number in 0..100 {
        whole &= cut_off(alloc, events, rules, text, status, &mut Mixed::new(number))?;
    }
    Ok(whole)
}

/// What is said where the ticket of this number fails.
const FAILED: [&[u8]; 6] = [
    b"store fault 1\n",
    b"store fault 2\n",
    b"store fault 3\n",
    b"store fault 4\n",
    b"store fault 5\n",
    b"store fault 6\n",
];

#[test]
fn crashes_at_each_moment(rt: HostRuntime) -> Result<(), Fail> {
    let alloc = rt.alloc();
    for events in 0..12usize {
        let text = FAILED[events / 2];
        assert!(rt;
            cut_off_each(alloc, events as u64, &[], text, 5)?,
            "{events}"
        );
    }
    assert!(rt; cut_off_each(alloc, 12, &[], b"made 104\n", 0)?);
    Ok(())
}

#[test]
fn crashes_after_each_failed_call(rt: HostRuntime) -> Result<(), Fail> {
    let alloc = rt.alloc();
    for (nth, text) in (1..).zip(FAILED) {
        for keep in [Keep::Old, Keep::New] {
            let rules = [Rule::FailNth { nth, keep }];
            assert!(rt; cut_off_each(alloc, 100, &rules, text, 5)?, "{nth}");
        }
    }
    Ok(())
}

/// The sectors of the store that the words make.
const SIZES: [(&str, Option<u64>); 8] = [
    (SMALL, Some(104)),
    (LONG, Some(4196)),
    ("make J Q 131072 128 16 64 64", Some(131_141)),
    ("make I P 67108864 128 64 8192 4096", Some(67_113_409)),
    ("make I P 67108872 8 4 3 4", None),
    ("make I P", None),
    ("show I P 95 2", None),
    ("", None),
];

#[test]
fn sizes_of_stores(rt: HostRuntime) -> Result<(), Fail> {
    let alloc = rt.alloc();
    for (words, sectors) in &SIZES {
        let found = store_sectors(words_of(alloc, words)?.as_slice());
        assert_eq!(rt; found, *sectors, "{words}");
    }
    Ok(())
}
