//! The stages of a flush, its ways, and what it puts.

use vd_law::entry::Sector;

/// What a flush does next.
#[derive(Clone, Copy, Debug, PartialEq, Eq, Drop)]
pub enum Stage {
    /// No flush is under way.
    Rest,
    /// The guest's data is made durable.
    DataFlush,
    /// A record, a sector of the map or the header is put.
    Puts,
    /// What was put is made durable.
    Syncs,
    /// All is durable; the flush is sealed.
    Seals,
    /// A call of the last flush failed.
    Broken,
}

/// How a flush is asked for: to log what is owed, or to write the map and a header with this number of tracked sectors.
#[derive(Clone, Copy, Debug, PartialEq, Eq, Drop)]
pub enum Route {
    Owed,
    Recycle { tracked: u64 },
}

/// What the flush under way writes beside the guest's data.
#[derive(Clone, Copy, Debug, PartialEq, Eq, Drop)]
pub enum Way {
    Nothing,
    Records,
    Recycle { tracked: u64 },
}

/// What is written next.
#[derive(Drop)]
pub enum Put {
    /// A record, into this slot, from 0.
    Record { slot: u32, sector: Sector },
    /// A sector of the map, by its number from the map's first.
    Page { at: u64, sector: Sector },
    /// The header.
    Head { sector: Sector },
}
