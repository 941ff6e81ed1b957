use super::changed;
use crate::{Entry, Map, Shape2, read_entry};
use std::test::Fail;
use vd_law::entry::Sector;

/// 16 blocks in 4 chunks, of which 3 have storage.
pub const SHAPE: Shape2 = Shape2 {
    chunks: 4,
    storage: 3,
    blocks: 16,
    chunk: 4,
    generation: 1,
};

#[test]
fn entries(rt: HostRuntime) -> Result<(), Fail> {
    let mut map = Map::new(rt.alloc(), 34).ok().ok_or("there is memory")?;
    let entry = Entry {
        storage: 2,
        zeros: false,
        mask: 9,
    };
    map.put(33, entry);
    assert!(rt; map.get(33) == entry);
    assert!(rt; map.page(0) == Sector::filled(0));
    assert!(rt; map.page(1) == changed(&[], &[(16, 2), (24, 9)]));
    let short = Shape2 {
        blocks: 15,
        ..SHAPE
    };
    let rows: [(&[(usize, u8)], u32, Result<Entry, u32>); 6] = [
        (&[(16, 2), (24, 9)], 1, Ok(entry)),
        (&[(20, 2)], 1, Err(0)),
        (&[(16, 4), (24, 9)], 1, Err(4)),
        (&[(24, 9)], 1, Err(0)),
        (&[(16, 2), (24, 25)], 1, Err(2)),
        (&[(48, 2), (56, 9)], 3, Err(2)),
    ];
    for (edits, at, read) in &rows {
        assert!(rt; *at < 32);
        assert!(rt; read_entry(&changed(&[], edits), *at, &short, *at) == *read);
    }
    Ok(())
}
