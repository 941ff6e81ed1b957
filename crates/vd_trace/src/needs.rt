//! The room that requests take in a history.

ghost use Rattle.std.specs.Prelude.{◌≡◌, ◌^◌, ◌<◌, ◌≤◌, [], length, sum_by};
ghost use Rattle.vd_law.specs.Needs.{request_room};
ghost use Rattle.vd_trace.specs.Keeping.{work_of, room_in};
ghost use Rattle.vd_trace.specs.Traces.{work_asked};

use crate::kept::{Item, Stored};
use vd_law::entry::Room;
use vd_law::needs::{flush_room, read_room, write_room};

fn room_of_work(block: u32, work: Stored) -> Room
    requires { 0 < block }
    ensures room { result ≡ request_room block (work_asked (work_of [] work)) }
    ensures few { result.events < 2 ^ 35 }
    ensures small { result.sectors < 2 ^ 35 }
{
    let block = u64::from(block);
    match work {
        Stored::Read { first, count } => read_room(block, first, u64::from(count)),
        Stored::Fill {
            first,
            count,
            byte: _,
        } => write_room(block, first, u64::from(count)),
        Stored::Put { first, place: _ } => write_room(block, first, 1),
        Stored::Flush => flush_room(),
    }
}

/// The room that all of them take.
pub fn needed(items: &[Item], block: u32) -> Room
    requires block { 0 < block }
    requires few { length items.now ≤ 500000 }
    ensures events { result.events ≡ sum_by (λ i. (room_in block i).events) items.now }
    ensures sectors { result.sectors ≡ sum_by (λ i. (room_in block i).sectors) items.now }
{
    let mut events = 0u64;
    let mut sectors = 0u64;
    for item in items {
        let room = room_of_work(block, item.work);
        events += room.events;
        sectors += room.sectors;
    }
    Room { events, sectors }
}
