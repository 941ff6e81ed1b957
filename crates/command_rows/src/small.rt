//! Small images in memory, and what commands do over them.

use std::alloc::Global;
use std::test::Fail;
use vd_device::{Base, Store};
use vd_faults::Rule;
use vd_io::mem_sink::MemSink;
use vd_io::mem_source::MemSource;
use vd_law::entry::{Room, Sector};
use vd_mem::{MemBase, MemStore};
use vd_top::{End, still};

/// The header of a disk of 128 sectors with 96 of them tracked, blocks of 8, chunks of 4 blocks, 3 storage chunks and 4 slots.
pub(crate) const HEADER: [u8; 56] = [
    0x46, 0x56, 0x44, 0x50, 0x52, 0x4f, 0x46, 0x31, 2, 0, 0, 0, 8, 0, 0, 0, 4, 0, 0, 0, 3, 0, 0, 0,
    4, 0, 0, 0, 0, 0, 0, 0, 0x80, 0, 0, 0, 0, 0, 0, 0, 0x60, 0, 0, 0, 0, 0, 0, 0, 1, 0, 0, 0, 0, 0,
    0, 0,
];

/// A run of one guest over an image.
pub(crate) const RUN: &str = "run I P 1 0 off 0";

/// A flush after each of five writes, the last of which is in the second chunk. The first four flushes use the four slots,
/// the fifth recycles.
pub(crate) const FIVE: &[u8] =
    b"1 W 0 8 01\n1 F\n1 W 8 8 02\n1 F\n1 W 16 8 03\n1 F\n1 W 24 8 04\n1 F\n1 W 32 8 05\n1 F\n";

/// What a store's log has room for.
pub(crate) const ROOM: Room = Room {
    events: 1000,
    sectors: 10_000,
};

/// A sector and a byte of the store that isn't as in the fresh image, and what it is.
pub(crate) type Change = (usize, usize, u8);

pub(crate) fn words_of(alloc: Global, text: &str) -> Result<Vec<String>, Fail> {
    let mut words = Vec::new(alloc);
    for word in text.split_whitespace() {
        words.push(String::from_str(alloc, word)?)?;
    }
    Ok(words)
}

/// A fresh image in a store of so many sectors, with these changes.
pub(crate) fn image(
    alloc: Global,
    sectors: usize,
    changes: &[Change],
) -> Result<Vec<Sector>, Fail> {
    let mut content = vec![in alloc; Sector::filled(0); sectors]?;
    if let Some(first) = content.first_mut() {
        for (byte, value) in first.bytes.iter_mut().zip(&HEADER) {
            *byte = *value;
        }
    }
    for (at, place, value) in changes {
        if let Some(sector) = content.get_mut(*at) {
            if let Some(byte) = sector.bytes.get_mut(*place) {
                *byte = *value;
            }
        }
    }
    Ok(content)
}

/// A base of 96 sectors, each filled with its number.
pub(crate) fn base(alloc: Global) -> Result<Vec<Sector>, Fail> {
    let mut content = Vec::new(alloc);
    for byte in 0..96u8 {
        content.push(Sector::filled(byte))?;
    }
    Ok(content)
}

/// The trace, and what can fail: these rules of the store and of the base, these reads of the source and these writes of
/// the sink.
#[derive(Clone, Copy, Drop)]
pub(crate) struct Given<'a> {
    pub trace: &'a [u8],
    pub store: &'a [Rule],
    pub base: &'a [Rule],
    pub source: &'a [u64],
    pub sink: &'a [u64],
}

/// No line, and nothing fails.
pub(crate) const NONE: Given<'static> = Given {
    trace: &[],
    store: &[],
    base: &[],
    source: &[],
    sink: &[],
};

/// What a command left, and what it printed.
#[derive(Drop)]
pub(crate) struct Left<S> {
    pub end: End<S, MemBase>,
    pub text: Vec<u8>,
}

/// Does a command over a store and a base of this content; of what is given only the store's rules are left out.
pub(crate) fn did<S: Store + Drop>(
    alloc: Global,
    words: &str,
    store: S,
    under: Vec<Sector>,
    given: &Given<'_>,
) -> Result<Option<Left<S>>, Fail> {
    let words = words_of(alloc, words)?;
    let base = MemBase::new(under, given.base.to_vec(alloc)?);
    if store.in_flight() != 0 || base.in_flight() != 0 {
        return Ok(None);
    }
    let mut source = MemSource::new(given.trace.to_vec(alloc)?, given.source.to_vec(alloc)?);
    let mut sink = MemSink::new(vec![in alloc; 0u8; 20_000]?, given.sink.to_vec(alloc)?);
    let end = still(alloc, words.as_slice(), &mut source, &mut sink, store, base);
    let text = sink.bytes().to_vec(alloc)?;
    Ok(Some(Left { end, text }))
}

/// What the words leave of a store, over a base of 96 sectors, where they print this text with this status.
pub(crate) fn done<S: Store + Drop>(
    alloc: Global,
    words: &str,
    store: S,
    given: &Given<'_>,
    text: &[u8],
    status: u8,
) -> Result<Option<End<S, MemBase>>, Fail> {
    match did(alloc, words, store, base(alloc)?, given)? {
        Some(Left { end, text: printed }) if end.status == status && printed.as_slice() == text => {
            Ok(Some(end))
        }
        _ => Ok(None),
    }
}

/// Whether the words print this text with this status, over an image of this content and a base of 96 sectors.
pub(crate) fn ends(
    alloc: Global,
    words: &str,
    content: Vec<Sector>,
    given: &Given<'_>,
    text: &[u8],
    status: u8,
) -> Result<bool, Fail> {
    match MemStore::new(alloc, content, ROOM, given.store.to_vec(alloc)?) {
        Ok(store) => Ok(done(alloc, words, store, given, text, status)?.is_some()),
        Err(_) => Ok(false),
    }
}
