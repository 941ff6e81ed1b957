use super::changed;
use super::entries::SHAPE;
use crate::{Entry, Fact2, Slot2, read_record2, write_record2};

const FIRST: Fact2 = Fact2 {
    chunk: 0,
    entry: Entry {
        storage: 1,
        zeros: false,
        mask: 2,
    },
};

/// The record that says `FIRST`, before its zeros.
const BYTES: [u8; 44] = [
    0x46, 0x56, 0x44, 0x52, 0x45, 0x43, 0x4f, 0x32, 1, 0, 0, 0, 0, 0, 0, 0, 1, 0, 0, 0, 0, 0, 0, 0,
    0, 0, 0, 0, 1, 0, 0, 0, 0, 0, 0, 0, 2, 0, 0, 0, 0, 0, 0, 0,
];

/// How many facts a slot has, `Some(0)` for a bad one, and None where it does not count.
fn facts_of(slot: &Slot2) -> Option<u32> {
    match slot {
        Slot2::Other => None,
        Slot2::Counts(facts) => Some(facts.len()),
        Slot2::Bad => Some(0),
    }
}

#[test]
fn records(rt: HostRuntime) {
    let sector = changed(&BYTES, &[]);
    match read_record2(&sector, &SHAPE) {
        Slot2::Counts(facts) => {
            assert!(rt; facts.len() == 1);
            assert!(rt; facts.get(0) == FIRST);
            assert!(rt; write_record2(&facts, &SHAPE) == sector);
        }
        _ => assert!(rt; false),
    }
    let rows: [(&[(usize, u8)], Option<u32>); 13] = [
        // The magic of version 1, and another generation.
        (&[(7, 0x31)], None),
        (&[(8, 2)], None),
        // The number of facts.
        (&[(16, 0)], Some(0)),
        (&[(16, 25)], Some(0)),
        // A byte that must be zero.
        (&[(20, 1)], Some(0)),
        (&[(511, 1)], Some(0)),
        // A second fact: of the same chunk, of the next one, of one that there is not.
        (&[(16, 2), (48, 2), (56, 1)], Some(0)),
        (&[(16, 2), (44, 1), (48, 2), (56, 1)], Some(2)),
        (&[(16, 2), (44, 4), (48, 2), (56, 1)], Some(0)),
        // Storage that there is not, zeros, a block of another chunk, storage without a block.
        (&[(28, 4)], Some(0)),
        (&[(32, 1)], Some(0)),
        (&[(36, 16)], Some(0)),
        (&[(36, 0)], Some(0)),
    ];
    for (edits, facts) in &rows {
        assert!(rt; facts_of(&read_record2(&changed(&BYTES, edits), &SHAPE)) == *facts);
    }
}
