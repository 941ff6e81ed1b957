//! A pass of the turn.
ghost use Rattle.std.specs.Prelude.{◌≡◌, ◌<◌, false, [], length};
ghost use Rattle.vd_turn.specs.Board.{knowing};
ghost use Rattle.vd_turn.specs.Passes.{resting};

use crate::board::{Place, Top};
use crate::keeping::Kept;
use std::marker::Model;

/// A right to take the turn, and what its owner has seen. A turn whose pass was dropped is not closed.
pub struct TurnPass<V> {
    number: u32,
    pub(crate) place: Place<V>,
    ghost knows: { 0 < length place.me.0.notes },
}

impl<V> Model for TurnPass<V> {
    ghost use Rattle.std.specs.Prelude.{◌≡◌};
    ghost use Rattle.vd_turn.specs.Values.{PassValue};
    ghost use Rattle.vd_turn.specs.Board.{knowing, known_last};

    ghost Value = { PassValue V };

    ghost view = { λ p. record { turn = p.place.table_id; number = p.number; holds = p.place.me.0.holds; last = known_last p.place.me.0.notes p.knows; found = p.place.me.0.found } };

    ghost invariant = { λ p. p.place.me ≡ knowing p.number (known_last p.place.me.0.notes p.knows) p.place.me.0.holds p.place.me.0.found };
}

impl<V: Kept> TurnPass<V> {
    pub(crate) fn resting(top: &Top<V>, number: u32, place: Place<V>) -> TurnPass<V>
        requires { place.me ≡ knowing number top.now.key.start.value false [] }
        ensures { result ≡ resting place.table_id top.now.key.start.value number }
    {
        TurnPass { number, place }
    }
}

impl<V> TurnPass<V> {
    /// Passes are numbered from 0, by their place in the list in which they were made.
    pub fn number(&self) -> u32
        ensures { result ≡ self.now.number }
    {
        self.number
    }

    pub(crate) fn into_place(self) -> Place<V>
        requires { self.holds ≡ false }
        ensures { (result.me ≡ knowing self.number self.last false self.found) × (result.table_id ≡ self.turn) }
    {
        let Self { number: _, place } = self;
        place
    }
}

// With no bound on V, so that a thread's closure can own a pass.
impl<V> Drop for TurnPass<V> {
    fn drop(self) {
        let Self {
            number: _,
            place: _,
        } = self;
    }
}
