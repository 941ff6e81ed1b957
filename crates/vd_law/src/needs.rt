//! The room in a history that a request takes.

ghost use Rattle.std.specs.Prelude.{◌≡◌, ◌+◌, ◌*◌, ◌^◌, ◌<◌, ◌≤◌};
ghost use Rattle.vd_law.specs.Entries.{asked_of};
ghost use Rattle.vd_law.specs.Needs.{pieces, read_room, write_room, flush_room, request_room, sectors_asked};

use crate::entry::{Request, Room};

/// In how many blocks a range lies.
fn pieces(block: u64, first: u64, count: u64) -> u64
    requires some { 0 < block }
    requires small { block ≤ 2 ^ 32 }
    requires fits { count ≤ 2 ^ 32 }
    ensures value { result ≡ pieces block first count }
    ensures few { result ≤ count + 1 }
{
    (first % block + count + (block - 1)) / block
}

/// The room of a read, on a disk whose blocks have so many sectors.
pub fn read_room(block: u64, first: u64, count: u64) -> Room
    requires some { 0 < block }
    requires small { block ≤ 2 ^ 32 }
    requires fits { count ≤ 2 ^ 32 }
    ensures room { result ≡ read_room block first count }
    ensures few { result.events ≤ count + 3 }
{
    Room {
        events: 2 + pieces(block, first, count),
        sectors: count,
    }
}

/// The room of a write.
pub fn write_room(block: u64, first: u64, count: u64) -> Room
    requires some { 0 < block }
    requires small { block ≤ 2 ^ 32 }
    requires fits { count ≤ 2 ^ 32 }
    ensures room { result ≡ write_room block first count }
    ensures few { result.events ≤ 2 * count + 4 }
{
    Room {
        events: 2 + 2 * pieces(block, first, count),
        sectors: 2 * count,
    }
}

/// The room of a flush.
pub fn flush_room() -> Room
    ensures { result ≡ flush_room }
{
    Room {
        events: 2,
        sectors: 0,
    }
}

/// The room of a request.
pub fn request_room(block: u64, request: Request<'_>) -> Room
    requires some { 0 < block }
    requires small { block ≤ 2 ^ 32 }
    requires fits { sectors_asked (asked_of request) ≤ 2 ^ 32 }
    ensures { result ≡ request_room block (asked_of request.entry) }
{
    match request {
        Request::Read { first, count } => read_room(block, first, count),
        Request::Write { first, content } => write_room(block, first, content.len() as u64),
        Request::Flush => flush_room(),
    }
}
