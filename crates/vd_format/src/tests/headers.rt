use super::changed;
use crate::{Header, HeaderError, Layout, layout_of, read_header, valid, write_header};

/// 16 blocks of 8 sectors in 4 chunks, of which 3 have storage.
const SMALL: Header = Header {
    version: 2,
    block: 8,
    chunk: 4,
    storage: 3,
    slots: 4,
    size: 128,
    tracked: 96,
    generation: 1,
};

const LARGE: Header = Header {
    version: 2,
    block: 128,
    chunk: 16,
    storage: 64,
    slots: 64,
    size: 131_072,
    tracked: 131_072,
    generation: 1,
};

/// The bytes of `SMALL` before its zeros.
const BYTES: [u8; 56] = [
    0x46, 0x56, 0x44, 0x50, 0x52, 0x4f, 0x46, 0x31, 2, 0, 0, 0, 8, 0, 0, 0, 4, 0, 0, 0, 3, 0, 0, 0,
    4, 0, 0, 0, 0, 0, 0, 0, 0x80, 0, 0, 0, 0, 0, 0, 0, 0x60, 0, 0, 0, 0, 0, 0, 0, 1, 0, 0, 0, 0, 0,
    0, 0,
];

#[test]
fn headers_and_layouts(rt: HostRuntime) {
    assert!(rt; valid(&SMALL));
    assert!(rt; write_header(&SMALL) == changed(&BYTES, &[]));
    assert!(rt; read_header(&changed(&BYTES, &[])) == Ok(SMALL));
    let small = Layout {
        blocks: 16,
        chunks: 4,
        table_at: 1,
        bits_at: 2,
        spare_at: 3,
        slots_at: 4,
        storage_at: 8,
        need: 104,
    };
    assert!(rt; layout_of(&SMALL) == small);
    assert!(rt; valid(&LARGE));
    let large = Layout {
        blocks: 1024,
        chunks: 64,
        table_at: 1,
        bits_at: 2,
        spare_at: 3,
        slots_at: 5,
        storage_at: 69,
        need: 131_141,
    };
    assert!(rt; layout_of(&LARGE) == large);
}

#[test]
fn refusals(rt: HostRuntime) {
    let rows: [(&[(usize, u8)], HeaderError); 14] = [
        (&[(0, 0)], HeaderError::NotImage),
        (&[(8, 9)], HeaderError::Version(9)),
        (&[(0, 0), (8, 9)], HeaderError::NotImage),
        (&[(48, 0)], HeaderError::Field(7)),
        (&[(40, 129)], HeaderError::Field(6)),
        (&[(20, 5)], HeaderError::Field(4)),
        (&[(12, 12), (16, 3)], HeaderError::Field(1)),
        (&[(32, 124)], HeaderError::Field(3)),
        (&[(511, 1)], HeaderError::Field(8)),
        (&[(28, 1)], HeaderError::Field(8)),
        // The size has a higher place than the storage, and is judged before it.
        (&[(20, 0), (32, 124)], HeaderError::Field(3)),
        (&[(24, 0), (28, 1)], HeaderError::Field(5)),
        // One block more than the version allows.
        (&[(8, 1), (32, 8), (35, 1)], HeaderError::Field(3)),
        (&[(32, 8), (35, 4)], HeaderError::Field(3)),
    ];
    for (edits, error) in &rows {
        assert!(rt; read_header(&changed(&BYTES, edits)) == Err(*error));
    }
    // Just as many.
    assert!(rt; read_header(&changed(&BYTES, &[(8, 1), (32, 0), (35, 1)])).is_ok());
    assert!(rt; read_header(&changed(&BYTES, &[(32, 0), (35, 4)])).is_ok());
}
