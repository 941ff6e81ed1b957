//! Worked bytes: headers, entries and records, each with single bytes changed.

use vd_law::entry::Sector;

mod entries;
mod headers;
mod records;

/// These bytes and then zeros, each of these places changed.
fn changed(bytes: &[u8], edits: &[(usize, u8)]) -> Sector {
    let mut sector = Sector::filled(0);
    if bytes.len() <= 512 {
        sector.bytes[..bytes.len()].copy_from_slice(bytes);
    }
    for (at, byte) in edits {
        if *at < 512 {
            sector.bytes[*at] = *byte;
        }
    }
    sector
}
