//! What `show` prints: images by their bytes, and devices and sinks that fail.

use crate::small::{Change, Given, Left, NONE, ROOM, base, did, ends, image};
use std::alloc::Global;
use std::test::Fail;
use vd_faults::{Keep, Rule};
use vd_law::entry::Sector;
use vd_mem::MemStore;

/// A fresh image is answered so.
const FRESH: [(&str, &[u8], u8); 7] = [
    ("show I P 95 2", b"show 95 *5f *00\n", 0),
    ("show I P 127 2", b"past the disk\n", 4),
    ("show I P 128 1", b"past the disk\n", 4),
    ("show I P 0 0", b"bad words\n", 2),
    ("show I P 0 2049", b"bad words\n", 2),
    ("show I P", b"bad words\n", 2),
    ("", b"bad words\n", 2),
];

#[test]
fn words_over_a_fresh_image(rt: HostRuntime) -> Result<(), Fail> {
    let alloc = rt.alloc();
    for (words, text, status) in &FRESH {
        let content = image(alloc, 104, &[])?;
        assert!(rt;
            ends(alloc, words, content, &NONE, text, *status)?,
            "{words}"
        );
    }
    Ok(())
}

/// An image of so many sectors with these changes is refused so.
const REFUSED: [(usize, &[Change], &[u8]); 13] = [
    (103, &[], b"too small 104 103\n"),
    (0, &[], b"too small 1 0\n"),
    (104, &[(0, 0, 0)], b"not image\n"),
    (104, &[(0, 8, 9)], b"version 9\n"),
    (104, &[(0, 0, 0), (0, 8, 9)], b"not image\n"),
    (104, &[(0, 12, 12), (0, 16, 3)], b"bad field 1\n"),
    (104, &[(0, 16, 3)], b"bad field 2\n"),
    (104, &[(0, 32, 124)], b"bad field 3\n"),
    (104, &[(0, 20, 5)], b"bad field 4\n"),
    (104, &[(0, 24, 0)], b"bad field 5\n"),
    (104, &[(0, 40, 129)], b"bad field 6\n"),
    (104, &[(0, 48, 0)], b"bad field 7\n"),
    (104, &[(0, 511, 1)], b"bad field 8\n"),
];

#[test]
fn images_refused_by_their_header(rt: HostRuntime) -> Result<(), Fail> {
    let alloc = rt.alloc();
    for (sectors, changes, text) in &REFUSED {
        let content = image(alloc, *sectors, changes)?;
        assert!(rt; ends(alloc, "show I P 0 1", content, &NONE, text, 3)?);
    }
    Ok(())
}

/// The image with these changes is answered so.
const CHANGED: [(&str, &[Change], &[u8], u8); 6] = [
    // a bit of a block that there is not, behind it a byte of no chunk; a range past the disk comes after it
    ("show I P 127 2", &[(3, 63, 1)], b"bad entry 3 0\n", 3),
    ("show I P 0 1", &[(3, 64, 1)], b"show 0 *00\n", 0),
    // version 1 has a table and a bitmap in the place of the map
    ("show I P 94 2", &[(0, 8, 1)], b"show 94 *5e *5f\n", 0),
    ("show I P 0 1", &[(0, 8, 1), (1, 15, 1)], b"not built\n", 8),
    ("show I P 0 1", &[(0, 8, 1), (2, 31, 1)], b"not built\n", 8),
    ("show I P 0 1", &[(0, 8, 1), (3, 0, 1)], b"show 0 *00\n", 0),
];

#[test]
fn images_with_a_byte_changed(rt: HostRuntime) -> Result<(), Fail> {
    let alloc = rt.alloc();
    for (words, changes, text, status) in &CHANGED {
        let content = image(alloc, 104, changes)?;
        assert!(rt;
            ends(alloc, words, content, &NONE, text, *status)?,
            "{words}"
        );
    }
    Ok(())
}

/// 4,096 sectors, all tracked, in 8 chunks of 64 blocks.
const LARGE: [Change; 7] = [
    (0, 16, 64),
    (0, 20, 1),
    (0, 24, 1),
    (0, 32, 0),
    (0, 33, 16),
    (0, 40, 0),
    (0, 41, 16),
];

#[test]
fn as_many_sectors_as_one_show_has(rt: HostRuntime) -> Result<(), Fail> {
    let alloc = rt.alloc();
    let store = MemStore::new(alloc, image(alloc, 517, &LARGE)?, ROOM, Vec::new(alloc))?;
    let under = vec![in alloc; Sector::filled(0xab); 3000]?;
    let mut text = Vec::new(alloc);
    text.extend_from_slice(b"show 2000")?;
    for s in 2000..4048 {
        text.extend_from_slice(if s < 3000 { b" *ab" } else { b" *00" })?;
    }
    text.push(b'\n')?;
    let Some(Left { end, text: printed }) = did(alloc, "show I P 2000 2048", store, under, &NONE)?
    else {
        panic!(rt; "not ready");
    };
    assert_eq!(rt; end.status, 0);
    assert!(rt; printed.as_slice() == text.as_slice());
    Ok(())
}

/// The changes that put a record's magic of this version, and a generation, into a slot.
fn record(slot: usize, version: u8, generation: u8) -> [Change; 9] {
    let sector = 4 + slot.min(3);
    [
        (sector, 0, b'F'),
        (sector, 1, b'V'),
        (sector, 2, b'D'),
        (sector, 3, b'R'),
        (sector, 4, b'E'),
        (sector, 5, b'C'),
        (sector, 6, b'O'),
        (sector, 7, b'0' + version % 8),
        (sector, 8, generation),
    ]
}

#[test]
fn records_that_count(rt: HostRuntime) -> Result<(), Fail> {
    let alloc = rt.alloc();
    // the magic and a generation alone: the records have no facts
    let rows: [(usize, u8, u8, &[u8], u8); 5] = [
        (0, 2, 1, b"bad record 0\n", 3),
        (1, 2, 1, b"bad record 1\n", 3),
        (1, 2, 2, b"show 8 *08\n", 0),
        (1, 1, 1, b"show 8 *08\n", 0),
        (1, 3, 1, b"show 8 *08\n", 0),
    ];
    for (slot, version, generation, text, status) in &rows {
        let content = image(alloc, 104, &record(*slot, *version, *generation))?;
        assert!(rt; ends(alloc, "show I P 8 1", content, &NONE, text, *status)?);
    }
    Ok(())
}

/// An image with these changes, and a block of 8 sectors of 0x77 from sector `first` of the store on.
fn image_with(alloc: Global, changes: &[Change], first: usize) -> Result<Vec<Sector>, Fail> {
    let mut content = image(alloc, 104, changes)?;
    let from = first.min(96);
    for at in from..from + 8 {
        if let Some(sector) = content.get_mut(at) {
            *sector = Sector::filled(0x77);
        }
    }
    Ok(content)
}

/// Chunk 0 has the first storage chunk, which begins at sector 8 of the store, and block 1 is local.
const LOCAL: [Change; 2] = [(3, 0, 1), (3, 8, 2)];

/// Block 1 of chunk 0 in the map; a kind that there is not; two chunks with one storage chunk.
const MAPS: [(&[Change], &str, &[u8], u8); 4] = [
    (&LOCAL, "show I P 7 3", b"show 7 *07 *77 *77\n", 0),
    (&LOCAL, "show I P 14 4", b"show 14 *77 *77 *10 *11\n", 0),
    (&[(3, 4, 2)], "show I P 0 1", b"bad entry 0 0\n", 3),
    (
        &[(3, 0, 1), (3, 8, 1), (3, 16, 1), (3, 24, 1)],
        "show I P 0 1",
        b"double chunk 0 1\n",
        3,
    ),
];

#[test]
fn images_with_a_map(rt: HostRuntime) -> Result<(), Fail> {
    let alloc = rt.alloc();
    for (changes, words, text, status) in &MAPS {
        let content = image_with(alloc, changes, 16)?;
        assert!(rt;
            ends(alloc, words, content, &NONE, text, *status)?,
            "{words}"
        );
    }
    Ok(())
}

#[test]
fn image_with_a_record_alone(rt: HostRuntime) -> Result<(), Fail> {
    let alloc = rt.alloc();
    // in slot 1: block 0 of chunk 1 is local, in the second storage chunk
    let mut changes = record(1, 2, 1).to_vec(alloc)?;
    changes.extend_from_slice(&[(5, 16, 1), (5, 24, 1), (5, 28, 2), (5, 36, 1)])?;
    let content = image_with(alloc, changes.as_slice(), 40)?;
    let text = b"show 31 *1f *77\n";
    assert!(rt; ends(alloc, "show I P 31 2", content, &NONE, text, 0)?);
    Ok(())
}

/// What is said where the ticket of this number fails: a flush, the header, the map, the slots, and after the base the
/// local block.
const STORE_FAULTS: [&[u8]; 5] = [
    b"store fault 1\n",
    b"store fault 2\n",
    b"store fault 3\n",
    b"store fault 4\n",
    b"store fault 5\n",
];

#[test]
fn devices_that_fail_once(rt: HostRuntime) -> Result<(), Fail> {
    let alloc = rt.alloc();
    for (nth, text) in (1..).zip(STORE_FAULTS) {
        let rules = [Rule::FailNth {
            nth,
            keep: Keep::Old,
        }];
        let faults = Given {
            store: &rules,
            ..NONE
        };
        let content = image_with(alloc, &LOCAL, 16)?;
        assert!(rt; ends(alloc, "show I P 7 3", content, &faults, text, 5)?);
    }
    let rules = [Rule::FailNth {
        nth: 1,
        keep: Keep::Old,
    }];
    let faults = Given {
        base: &rules,
        ..NONE
    };
    let content = image_with(alloc, &LOCAL, 16)?;
    assert!(rt;
        ends(
            alloc,
            "show I P 7 3",
            content,
            &faults,
            b"base fault 1\n",
            5
        )?
    );
    Ok(())
}

/// What is printed before the write of this number fails.
const PRINTED: [&[u8]; 4] = [b"", b"show 95", b"show 95 *5f", b"show 95 *5f *00"];

#[test]
fn sinks_that_fail_once(rt: HostRuntime) -> Result<(), Fail> {
    let alloc = rt.alloc();
    for (nth, text) in (1..).zip(PRINTED) {
        let calls = [nth];
        let faults = Given {
            sink: &calls,
            ..NONE
        };
        let content = image(alloc, 104, &[])?;
        assert!(rt; ends(alloc, "show I P 95 2", content, &faults, text, 6)?);
    }
    let faults = Given { sink: &[1], ..NONE };
    assert!(rt; ends(alloc, "show", image(alloc, 104, &[])?, &faults, b"", 2)?);
    Ok(())
}
