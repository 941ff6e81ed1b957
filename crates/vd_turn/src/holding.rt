//! The value, while a pass holds it.
ghost use Rattle.std.specs.Prelude.{◌≡◌};

use std::marker::Model;

/// The value, out of the turn. Clauses see it as the value itself. It is not `Drop`: it has to be given back.
pub struct Held<V> {
    pub(crate) value: V,
}

impl<V> Model for Held<V> {
    ghost Value = { V };

    ghost view = { λ h. h.value };
}

impl<V> Held<V> {
    ghost use Rattle.std.specs.Borrow.{sem};
    ghost use Rattle.vd_turn.specs.Holding.{LendsValue};

    pub fn value(&self) -> &V
        ensures { result.now ≡ self.now }
    {
        &self.value
    }

    pub fn value_mut(&mut self) -> &mut V
        ensures* writes_back { sem 𝓛 (LendsValue V.row self.entry result) }
        ensures value { result.now ≡ self.old }
    {
        &mut self.value
    }
}
