//! The lock.
ghost use Rattle.std.specs.Prelude.{◌≡◌, ◌<◌, ◌≤◌, [], ◌∷◌, true, false, map, vec_capacity, IfNone, IfSome, IfOk, IfErr};
ghost use Rattle.std.specs.List.{All, range_with_len};
ghost use Rattle.vd_turn.specs.Lists.{IsLaterFor, IsGrownBy};
ghost use Rattle.vd_turn.specs.Passes.{Belongs, HoldsValue, Rests, FindsTaken, HasAll, pass_number};

use crate::board::{Board, Terms};
use crate::dealing::{deal, gather};
use crate::holding::Held;
use crate::keeping::Kept;
use crate::passes::TurnPass;
use crate::plays::{Give, Look, Take};
use atomic_table::Table;
use std::alloc::{AllocError, Global};
use std::marker::Model;
use std::snapshot::Snapshot;
use std::sync::Wait;
use std::thread::yield_now;

/// A lock round a value that keeps a list. Threads share it by reference, each with a pass of its own.
/// A hold takes the value out and gives it back with entries of the holder alone added.
#[derive(Drop)]
pub struct Turn<V: Kept> {
    board: Board<V>,
}

impl<V: Kept> Model for Turn<V> {
    ghost use Rattle.std.specs.Prelude.{◌≡◌, ◌<◌};
    ghost use Rattle.vd_turn.specs.Values.{TurnValue};

    ghost Value = { TurnValue V };

    ghost view = { λ t. record { id = t.board.shared.table_id; passes = t.board.shared.key.passes; start = t.board.shared.key.start.value } };

    ghost invariant = { λ t. (t.board.shared.table_id.words ≡ 1) × (t.board.shared.table_id.slots ≡ 1) × (0 < t.board.shared.key.passes) };
}

/// There was no memory. The value comes back.
#[derive(Drop)]
pub struct Refused<V> {
    pub value: V,
}

// Room for the passes and for the slot.
struct Room<V> {
    passes: Vec<TurnPass<V>>,
    slots: Vec<Option<V>>,
}

fn make_room<V>(alloc: Global, count: u32) -> Result<Room<V>, AllocError>
    ensures passes { IfOk result (λ r. (r.passes.items ≡ []) × (count ≤ vec_capacity r.passes)) }
    ensures slots { IfOk result (λ r. (r.slots.items ≡ []) × (1 ≤ vec_capacity r.slots)) }
{
    let passes = Vec::with_capacity(alloc, count as usize)?;
    match Vec::with_capacity(alloc, 1) {
        Ok(slots) => Ok(Room { passes, slots }),
        Err(error) => {
            passes.destroy_empty();
            Err(error)
        }
    }
}

// The one value of a table that could not be made.
fn take_back<V>(mut slots: Vec<Option<V>>) -> Refused<V>
    requires { (x : V) × (slots.items ≡ Some x ∷ []) }
    ensures { slots.items ≡ Some result.value ∷ [] }
{
    let Some(Some(value)) = slots.pop() else {
        unreachable!()
    };
    slots.destroy_empty();
    Refused { value }
}

impl<V: Kept> Turn<V> {
    /// A turn round the value, and its passes: from 1 to 64 of them, numbered from 0 by their place.
    /// It takes memory, and is refused only for want of it.
    pub fn new(
        alloc: Global,
        value: V,
        passes: u32,
    ) -> Result<(Turn<V>, Vec<TurnPass<V>>), Refused<V>>
        requires { (1 ≤ passes) × (passes ≤ 64) }
        ensures turn { IfOk result (λ t. (t.0.start ≡ value) × (t.0.passes ≡ passes)) }
        ensures numbers { IfOk result (λ t. map pass_number t.1.items ≡ range_with_len 0 passes) }
        ensures each { IfOk result (λ t. All (λ pass. Belongs ⟦<V as Kept>⟧ t.0 pass × Rests pass value) t.1.items) }
        ensures refused { IfErr result (λ r. r.value ≡ value) }
    {
        let Ok(room) = make_room(alloc, passes) else {
            return Err(Refused { value });
        };
        let Room {
            passes: rights,
            mut slots,
        } = room;
        let terms = Terms {
            passes,
            start: Snapshot::of(&value),
        };
        let words = [2 * value.length()];
        slots.push_reserved(Some(value));
        match Table::new(alloc, &words, slots, &terms) {
            Ok((board, place)) => {
                let rights = deal(&board.shared, place, passes, rights);
                Ok((Turn { board }, rights))
            }
            Err(refused) => {
                rights.destroy_empty();
                Err(take_back(refused.slots))
            }
        }
    }

    /// One try, which neither waits nor takes memory. None only where its load found that a pass holds the value,
    /// or where its exchange from the word that was loaded found another word; then the pass knows and holds what it did.
    pub fn try_take(&self, pass: &mut TurnPass<V>) -> Option<Held<V>>
        requires belongs { Belongs ⟦<V as Kept>⟧ self.now pass.old }
        requires rests { pass.old.holds ≡ false }
        ensures pass { (pass.new.number ≡ pass.old.number) × Belongs ⟦<V as Kept>⟧ self.now pass.new }
        ensures none { IfNone result (FindsTaken pass.old pass.new) }
        ensures unchanged { IfNone result (Rests pass.new pass.old.last) }
        ensures holds { IfSome result (HoldsValue pass.new) }
        ensures later { IfSome result (IsLaterFor ⟦<V as Kept>⟧ pass.old.number pass.old.last) }
        ensures fixed { IfSome result (λ value. V.fixed value ≡ V.fixed self.now.start) }
    {
        let word = self.board.shared.load::<Look>(&mut pass.place, 0);
        if word % 2 == 1 {
            return None;
        }
        if self
            .board
            .shared
            .compare_exchange::<Take>(&mut pass.place, 0, word, word + 1)
            != word
        {
            return None;
        }
        let value = self
            .board
            .shared
            .exchange(&mut pass.place, 0, None)
            .unwrap();
        Some(Held { value })
    }

    /// Tries until it has the value. It takes no memory.
    pub fn take(&self, rt: &impl Wait, pass: &mut TurnPass<V>) -> Held<V>
        requires belongs { Belongs ⟦<V as Kept>⟧ self.now pass.old }
        requires rests { pass.old.holds ≡ false }
        ensures pass { (pass.new.number ≡ pass.old.number) × Belongs ⟦<V as Kept>⟧ self.now pass.new }
        ensures holds { HoldsValue pass.new result }
        ensures later { IsLaterFor ⟦<V as Kept>⟧ pass.old.number pass.old.last result }
        ensures fixed { V.fixed result ≡ V.fixed self.now.start }
    {
        for _ in rt.forever() {
            if let Some(held) = self.try_take(pass) {
                return held;
            }
            yield_now();
        }
        unreachable!()
    }

    /// Puts the value back. The pass took it, and has since added entries of its own alone and made one step at most.
    /// It has then seen the value's list. It takes no memory.
    pub fn give(&self, held: Held<V>, pass: &mut TurnPass<V>)
        requires belongs { Belongs ⟦<V as Kept>⟧ self.now pass.old }
        requires holds { pass.old.holds ≡ true }
        requires grown { IsGrownBy ⟦<V as Kept>⟧ pass.old.number pass.old.last held }
        ensures pass { (pass.new.number ≡ pass.old.number) × Belongs ⟦<V as Kept>⟧ self.now pass.new }
        ensures given { Rests pass.new held }
    {
        let Held { value } = held;
        let length = value.length();
        let empty = self.board.shared.exchange(&mut pass.place, 0, Some(value));
        let None = empty else { unreachable!() };
        self.board
            .shared
            .store::<Give>(&mut pass.place, 0, 2 * length);
    }

    /// Ends the turn, and hands out the value. All passes are there, and none holds. It takes no memory.
    pub fn close(self, passes: Vec<TurnPass<V>>) -> V
        requires all { HasAll self passes.items }
        requires each { All (λ pass. Belongs ⟦<V as Kept>⟧ self pass × (pass.holds ≡ false)) passes.items }
        ensures later { All (λ pass. IsLaterFor ⟦<V as Kept>⟧ pass.number pass.last result) passes.items }
        ensures fixed { V.fixed result ≡ V.fixed self.start }
    {
        let Turn { board } = self;
        let place = gather(&board.shared, passes);
        let mut closed = board.close_with(place);
        let value = closed.take(0).unwrap();
        closed.free();
        value
    }
}
