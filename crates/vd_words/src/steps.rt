//! The rule of the marks, what each step on a word tells, and the steps.
ghost use Rattle.std.specs.Prelude.{◌≡◌, ℕ, ◌≤◌};
ghost use Rattle.vd_words.specs.Rule.{view_after_mark, view_after_look, has_mark};
ghost use Rattle.vd_words.specs.Values.{IsBoardFor};

use crate::view::{Plan, View};
use atomic_table::{Join, Play, Seat, Split, Table, TableRule};
use std::alloc::Global;
use std::marker::{Brand, PhantomData};

/// Names the block of one step.
pub(crate) trait Chosen {
    ghost use Rattle.std.specs.Prelude.{ℕ};

    ghost block: { ℕ };
}

impl Chosen for Brand {
    ghost block = { 0 };
}

pub(crate) struct Marking;

impl TableRule<(), View, Plan> for Marking {
    ghost use Rattle.vd_words.specs.Rule.{AreMarksCounted, maker};

    ghost holds = { AreMarksCounted };

    ghost first = { maker };
}

pub(crate) struct Draw;

impl Play<(), View> for Draw {
    ghost use Rattle.vd_words.specs.Rule.{Drawn};

    ghost then = { Drawn };
}

pub(crate) struct Look<B> {
    block: PhantomData<B>,
}

impl<B: Chosen> Play<(), View> for Look<B> {
    ghost use Rattle.vd_words.specs.Rule.{Looked};

    ghost then = { Looked B.block };
}

pub(crate) struct Mark<B> {
    block: PhantomData<B>,
}

impl<B: Chosen> Play<(), View> for Mark<B> {
    ghost use Rattle.vd_words.specs.Rule.{Marked};

    ghost then = { Marked B.block };
}

pub(crate) struct Settle;

impl Play<(), View> for Settle {
    ghost use Rattle.vd_words.specs.Rule.{Settled};

    ghost then = { Settled };
}

pub(crate) struct Deal;

impl Split<View> for Deal {
    ghost use Rattle.vd_words.specs.Rule.{with_one_less, newcomer};

    ghost left = { with_one_less };

    ghost right = { λ v. newcomer };
}

impl Join<View> for Deal {
    ghost use Rattle.vd_words.specs.Rule.{both, nobody};

    ghost both = { both };

    ghost spent = { nobody };
}

pub(crate) type Board = Table<(), View, Plan, Marking, Global>;

pub(crate) type Place = Seat<(), View>;

/// Sets the block's bit.
pub(crate) fn set_bit<B: Chosen>(board: &Board, seat: &mut Place, block: u32)
    requires board { IsBoardFor board.now.shared.table_id board.now.shared.key block }
    requires seat { seat.old.table_id ≡ board.now.shared.table_id }
    requires part { 1 ≤ seat.old.me.0.parts }
    requires block { block ≡ B.block }
    ensures seat { (seat.new.table_id ≡ seat.old.table_id) × (seat.new.me ≡ (view_after_mark block seat.old.me.0, seat.old.me.1)) }
{
    let mask = 1 << (block % 64);
    board
        .shared
        .fetch_or::<Mark<B>>(seat, 1 + block as usize / 64, mask);
}

/// Loads the block's word once, and says whether its bit is set there.
pub(crate) fn read_bit<B: Chosen>(board: &Board, seat: &mut Place, block: u32) -> bool
    requires board { IsBoardFor board.now.shared.table_id board.now.shared.key block }
    requires seat { seat.old.table_id ≡ board.now.shared.table_id }
    requires part { 1 ≤ seat.old.me.0.parts }
    requires block { block ≡ B.block }
    ensures table { seat.new.table_id ≡ seat.old.table_id }
    ensures seat { (word : ℕ) × (seat.new.me ≡ (view_after_look block word seat.old.me.0, seat.old.me.1)) × (result ≡ has_mark word block) }
{
    let found = board.shared.load::<Look<B>>(seat, 1 + block as usize / 64);
    (found >> (block % 64)) & 1 == 1
}
