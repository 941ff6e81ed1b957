//! The table that the passes share. Word 0 is twice the length of the value's list, and one more while a pass holds it.
//! Slot 0 has the value while no pass holds it.
use crate::keeping::Kept;
use atomic_table::{Seat, Shared, Table, TableRule};
use std::alloc::Global;
use std::collections::LinkedList;
use std::marker::PhantomData;
use std::snapshot::Snapshot;

/// What a seat knows of one pass: its number, and the value that it gave back or took last. No value of it is made.
pub struct Note<V> {
    pub pass: u32,
    pub value: V,
}

/// What a seat knows. No value of it is made.
pub struct View<V> {
    pub notes: LinkedList<Note<V>>,
    pub holds: bool,
    /// The words that its tries to take found.
    pub found: LinkedList<u64>,
}

/// What the rule is told once.
#[derive(Drop)]
pub struct Terms<V> {
    pub passes: u32,
    pub start: Snapshot<V>,
}

pub struct Rule<V> {
    value: PhantomData<V>,
}

impl<V: Kept> TableRule<Option<V>, View<V>, Terms<V>> for Rule<V> {
    ghost use Rattle.vd_turn.specs.Board.{HasOneValue, first_view};
    ghost use Rattle.vd_turn.specs.Lists.{IsLaterFor, size};

    ghost holds = { λ terms. HasOneValue (IsLaterFor ⟦<V as Kept>⟧) (size ⟦<V as Kept>⟧) terms.passes };

    ghost first = { λ terms. first_view terms.passes terms.start.value };
}

pub type Board<V> = Table<Option<V>, View<V>, Terms<V>, Rule<V>, Global>;

pub type Place<V> = Seat<Option<V>, View<V>>;

/// The table as the passes share it.
pub type Top<V> = Shared<Option<V>, View<V>, Terms<V>, Rule<V>>;
