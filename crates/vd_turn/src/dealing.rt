//! How the seats of the passes are made, and how they come together again.
ghost use Rattle.std.specs.Prelude.{◌≡◌, ◌<◌, ◌≤◌, false, [], length, map, vec_capacity};
ghost use Rattle.std.specs.List.{All, range_with_len};
ghost use Rattle.vd_turn.specs.Board.{first_view, view_of, note_of};
ghost use Rattle.vd_turn.specs.Passes.{resting};

use crate::board::{Place, Top};
use crate::keeping::Kept;
use crate::passes::TurnPass;
use crate::plays::{CutFirst, Merge};

/// Makes `count` passes, for which there is room.
pub(crate) fn deal<V: Kept>(
    top: &Top<V>,
    mut place: Place<V>,
    count: u32,
    mut passes: Vec<TurnPass<V>>,
) -> Vec<TurnPass<V>>
    requires table { (place.table_id ≡ top.now.table_id) × (0 < top.now.table_id.words) × (count ≡ top.now.key.passes) }
    requires first { place.me ≡ (first_view count top.now.key.start.value, []) }
    requires room { (passes.items ≡ []) × (count ≤ vec_capacity passes) }
    ensures { result.items ≡ map (resting top.now.table_id top.now.key.start.value) (range_with_len 0 count) }
{
    for number in 0..count {
        let own = top.split_seat::<CutFirst>(&mut place);
        passes.push_reserved(TurnPass::resting(top, number, own));
    }
    passes
}

/// One seat that knows what all passes know.
pub(crate) fn gather<V: Kept>(top: &Top<V>, mut passes: Vec<TurnPass<V>>) -> Place<V>
    requires table { 0 < top.now.table_id.words }
    requires each { All (λ pass. (pass.turn ≡ top.now.table_id) × (pass.holds ≡ false)) passes.items }
    requires some { 0 < length passes.items }
    ensures { (result.table_id ≡ top.now.table_id) × (result.me.0 ≡ view_of (map note_of passes.items) false result.me.0.found) }
{
    let Some(last) = passes.pop() else {
        unreachable!()
    };
    let mut place = last.into_place();
    while let Some(pass) = passes.pop() {
        top.join_seat::<Merge>(&mut place, pass.into_place());
    }
    passes.destroy_empty();
    place
}
