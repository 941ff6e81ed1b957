//! What a line of a trace says.

use vd_law::entry::Sector;

/// What a guest asks. FIRST and COUNT are sectors.
#[derive(Clone, Copy, Drop)]
pub enum Work {
    /// `R FIRST COUNT`: reads these sectors.
    Read { first: u64, count: u32 },
    /// `W FIRST COUNT HH`: writes these sectors, each filled with one byte.
    Fill { first: u64, count: u32, byte: u8 },
    /// `X FIRST HEX`: writes one sector.
    Put { first: u64, sector: Sector },
    /// `F`: flushes.
    Flush,
}

/// What a line says.
#[derive(Clone, Copy, Drop)]
pub enum Line {
    /// The line is empty, or a comment that begins with `#`.
    Nothing,
    /// `G` and what this guest asks.
    Asks { guest: u32, work: Work },
    /// `S FIRST COUNT`: these sectors are shown after the reopening.
    Shows { first: u64, count: u32 },
}
