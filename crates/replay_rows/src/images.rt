//! Small images in memory, with some bytes changed.

use std::alloc::Global;
use std::test::Fail;
use vd_faults::{Keep, Rule};
use vd_law::entry::{Room, Sector};
use vd_mem::MemStore;

/// A disk of 128 sectors in blocks of 8 and chunks of 4 blocks, 3 storage chunks and 4 slots: the map is sector 3, the slots are
/// sectors 4 to 7, storage begins at 8 and ends at 104.
const HEADER: [u8; 56] = [
    0x46, 0x56, 0x44, 0x50, 0x52, 0x4f, 0x46, 0x31, 2, 0, 0, 0, 8, 0, 0, 0, 4, 0, 0, 0, 3, 0, 0, 0,
    4, 0, 0, 0, 0, 0, 0, 0, 0x80, 0, 0, 0, 0, 0, 0, 0, 0x60, 0, 0, 0, 0, 0, 0, 0, 1, 0, 0, 0, 0, 0,
    0, 0,
];

/// What is not as in a new image.
#[derive(Clone, Copy, Drop)]
pub enum Change<'a> {
    /// A byte: its sector, its place there, and its value.
    Byte(usize, usize, u8),
    /// The entry of a chunk in the map: storage, kind and mask.
    Entry(usize, [u8; 3]),
    /// A record: its slot, its generation, and its facts of chunk, storage and mask.
    Record(usize, u8, &'a [[u8; 3]]),
}

/// The header says version 1.
pub const OLD: Change<'static> = Change::Byte(0, 8, 1);

fn put(content: &mut Vec<Sector>, sector: usize, byte: usize, value: u8) {
    if let Some(sector) = content.get_mut(sector) {
        if let Some(byte) = sector.bytes.get_mut(byte) {
            *byte = value;
        }
    }
}

fn put_record(content: &mut Vec<Sector>, sector: usize, generation: u8, facts: &[[u8; 3]]) {
    for (at, byte) in b"FVDRECO2".iter().enumerate() {
        put(content, sector, at, *byte);
    }
    put(content, sector, 8, generation);
    put(content, sector, 16, facts.len().min(24) as u8);
    for (place, fact) in facts.iter().enumerate() {
        let at = 24 + 20 * place.min(23);
        put(content, sector, at, fact[0]);
        put(content, sector, at + 4, fact[1]);
        put(content, sector, at + 12, fact[2]);
    }
}

fn image(alloc: Global, sectors: usize, changes: &[Change]) -> Result<Vec<Sector>, Fail> {
    let mut content = vec![in alloc; Sector::filled(0); sectors]?;
    for (at, byte) in HEADER.iter().enumerate() {
        put(&mut content, 0, at, *byte);
    }
    for change in changes {
        match *change {
            Change::Byte(sector, byte, value) => put(&mut content, sector, byte, value),
            Change::Entry(chunk, says) => {
                let at = 16 * chunk.min(31);
                put(&mut content, 3, at, says[0]);
                put(&mut content, 3, at + 4, says[1]);
                put(&mut content, 3, at + 8, says[2]);
            }
            Change::Record(slot, generation, facts) => {
                put_record(&mut content, 4 + slot.min(3), generation, facts)
            }
        }
    }
    Ok(content)
}

/// A store of this image, whose ticket of number `fail` fails.
pub fn store_of(
    alloc: Global,
    sectors: usize,
    fail: u64,
    changes: &[Change],
) -> Result<MemStore, Fail> {
    let room = Room {
        events: 100,
        sectors: 1000,
    };
    let mut rules = Vec::new(alloc);
    rules.push(Rule::FailNth {
        nth: fail,
        keep: Keep::Old,
    })?;
    let content = image(alloc, sectors, changes)?;
    Ok(MemStore::new(alloc, content, room, rules)?)
}
