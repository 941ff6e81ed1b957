//! Marks, the pen that sets them, and the scans that look at them and draw numbers.
ghost use Rattle.std.specs.Prelude.{◌≡◌, ℕ, ◌+◌, ◌<◌, ◌≤◌, [], ◌∷◌, ◌++◌, false, true, IfOk, OnOk, replicate, vec_len};
ghost use Rattle.std.specs.Arc.{arc_value};
ghost use Rattle.std.specs.List.{All, Contains};
ghost use Rattle.vd_words.specs.Counts.{count_past};
ghost use Rattle.vd_words.specs.Rule.{view, newcomer};
ghost use Rattle.vd_words.specs.Values.{IsScanOf, IsPenOf, IsMade, Draws, AddsLook, Gathers, new_scan, times_drawn, times_looked, count_ended};

use crate::steps::{Board, Deal, Draw, Place, Settle, read_bit, set_bit};
use crate::view::Plan;
use std::alloc::{AllocError, Global};
use std::marker::{Brand, Model};
use std::sync::Arc;
use vd_law::entry::NoMemory;

/// One mark for each block, and a cursor from which numbers are drawn. Threads share it by reference.
#[derive(Drop)]
pub struct Marks {
    table: Arc<Board, Global>,
    blocks: u32,
    drawn: u32,
    scans: u32,
}

impl Model for Marks {
    ghost use Rattle.std.specs.Prelude.{◌≡◌, ◌≤◌, ◌<◌, ◌^◌};
    ghost use Rattle.std.specs.Arc.{arc_value};
    ghost use Rattle.vd_words.specs.Values.{MarksValue};
    ghost use Rattle.vd_words.specs.Rule.{word_count};

    ghost Value = { MarksValue };

    ghost view = { λ m. record { id = (arc_value m.table).shared.table_id; blocks = m.blocks; drawn = m.drawn; scans = m.scans } };

    ghost invariant = { λ m. ((arc_value m.table).shared.key ≡ record { blocks = m.blocks; drawn = m.drawn; scans = m.scans }) × ((arc_value m.table).shared.table_id.words ≡ word_count m.blocks) × (m.drawn ≤ m.blocks) × (m.blocks < 2 ^ 32) × (m.scans ≤ 64) };
}

/// Sets marks. It shares the marks and borrows nothing, so it can lie inside another value, as one under a lock.
#[derive(Drop)]
pub struct Pen {
    table: Arc<Board, Global>,
    seat: Place,
    blocks: u32,
}

impl Model for Pen {
    ghost use Rattle.std.specs.Prelude.{◌≡◌, []};
    ghost use Rattle.std.specs.Arc.{arc_value};
    ghost use Rattle.vd_words.specs.Values.{PenValue};
    ghost use Rattle.vd_words.specs.Rule.{word_count};

    ghost Value = { PenValue };

    ghost view = { λ p. record { id = p.seat.table_id; blocks = p.blocks; marked = p.seat.me.0.marked } };

    ghost invariant = { λ p. (p.seat.table_id ≡ (arc_value p.table).shared.table_id) × ((arc_value p.table).shared.table_id.words ≡ word_count p.blocks) × ((arc_value p.table).shared.key.blocks ≡ p.blocks) × (p.seat.me.0.parts ≡ 1) × (p.seat.me.0.drawn ≡ []) × (p.seat.me.0.looks ≡ []) × (p.seat.me.0.found ≡ []) × (p.seat.me.1 ≡ []) };
}

impl Pen {
    /// Sets the mark of a block, in one step. A block that is marked again stays marked.
    pub fn mark(&mut self, block: u32)
        requires { block < self.old.blocks }
        ensures { self.new ≡ record self.old { marked = self.old.marked ++ block ∷ [] } }
    {
        set_bit::<Brand>(&self.table, &mut self.seat, block);
    }

    fn into_seat(self) -> Place
        ensures { (result.table_id ≡ self.id) × (result.me ≡ (view 1 self.marked [] [] [], [])) }
    {
        let Pen {
            table: _,
            seat,
            blocks: _,
        } = self;
        seat
    }
}

/// Looks at marks and draws numbers. What it looked at and drew is told to proofs alone.
#[derive(Drop)]
pub struct Scan {
    seat: Place,
    limit: u32,
    ended: bool,
}

impl Model for Scan {
    ghost use Rattle.std.specs.Prelude.{◌≡◌, ◌<◌, true, false, []};
    ghost use Rattle.vd_words.specs.Values.{ScanValue};
    ghost use Rattle.vd_words.specs.Counts.{count_past};

    ghost Value = { ScanValue };

    ghost view = { λ s. record { id = s.seat.table_id; limit = s.limit; draws = s.seat.me.0.drawn; looks = s.seat.me.0.looks; found = s.seat.me.0.found; ended = s.ended } };

    ghost invariant = { λ s. (s.seat.me.0.parts ≡ 1) × (s.seat.me.0.marked ≡ []) × (s.seat.me.1 ≡ []) × (s.ended ≡ false → count_past s.limit s.seat.me.0.drawn ≡ 0) × (s.ended ≡ true → 0 < count_past s.limit s.seat.me.0.drawn) };
}

impl Scan {
    /// Whether a draw with this scan has answered None.
    pub fn ended(&self) -> bool
        ensures { result ≡ self.now.ended }
    {
        self.ended
    }

    fn into_seat(self) -> Place
        ensures seat { (result.table_id ≡ self.id) × (result.me ≡ (view 1 [] self.draws self.looks self.found, [])) }
        ensures ended { self.ended ≡ true → 0 < count_past self.limit self.draws }
    {
        let Scan {
            seat,
            limit: _,
            ended: _,
        } = self;
        seat
    }
}

impl Marks {
    /// Marks for `blocks` blocks, none of which is marked; a pen; and from 1 to 64 scans, which draw the numbers
    /// below `drawn`. It takes memory, and is refused only for want of it.
    pub fn new(
        alloc: Global,
        blocks: u32,
        drawn: u32,
        scans: u32,
    ) -> Result<(Marks, Pen, Vec<Scan>), NoMemory>
        requires drawn { drawn ≤ blocks }
        requires scans { (1 ≤ scans) × (scans ≤ 64) }
        ensures { IfOk result (λ m. IsMade blocks drawn scans m.0 m.1 m.2.items) }
    {
        let words = vec![in alloc; 0u64; 1 + (blocks as usize).div_ceil(64)]?;
        let plan = Plan {
            blocks,
            drawn,
            scans,
        };
        let (table, mut seat) = Board::of_words(alloc, words.as_slice(), &plan)?;
        let (table, shared) = share(alloc, table)?;
        let list = deal(alloc, &table, &mut seat, drawn, scans)?;
        let marks = Marks {
            table,
            blocks,
            drawn,
            scans,
        };
        let pen = Pen {
            table: shared,
            seat,
            blocks,
        };
        Ok((marks, pen, list))
    }

    /// The next number, which no other draw is given, or None where it is not below the count of numbers to draw.
    /// It neither waits nor takes memory.
    pub fn draw(&self, scan: &mut Scan) -> Option<u32>
        requires own { IsScanOf self.now scan.old }
        requires unended { scan.old.ended ≡ false }
        ensures same { (scan.new.id ≡ scan.old.id) × (scan.new.limit ≡ scan.old.limit) × (scan.new.looks ≡ scan.old.looks) × (scan.new.found ≡ scan.old.found) }
        ensures drawn { Draws scan.old scan.new result }
    {
        let number = self.table.shared.fetch_add::<Draw>(&mut scan.seat, 0, 1);
        if number < u64::from(self.drawn) {
            return Some(number as u32);
        }
        scan.ended = true;
        None
    }

    /// Whether the block is marked, by one load of its word. A false may be out of date at once beside other threads.
    /// It neither waits nor takes memory.
    pub fn seen(&self, scan: &mut Scan, block: u32) -> bool
        requires own { IsScanOf self.now scan.old }
        requires within { block < self.now.blocks }
        ensures { AddsLook scan.old scan.new block result }
    {
        read_bit::<Brand>(&self.table, &mut scan.seat, block)
    }

    /// Ends the marks, and tells what the scans saw and drew together. It takes no memory.
    pub fn close(self, pen: Pen, scans: Vec<Scan>)
        requires pen { IsPenOf self pen }
        requires scans { All (IsScanOf self) scans.items }
        requires all { vec_len scans ≡ self.scans }
        ensures once { (x : ℕ) → times_drawn x scans.items ≤ 1 }
        ensures every { 0 < count_ended scans.items → (x : ℕ) → x < self.drawn → times_drawn x scans.items ≡ 1 }
        ensures seen { (block : ℕ) → 0 < times_looked block scans.items → Contains pen.marked block }
    {
        let mut seat = pen.into_seat();
        gather(&self.table, &mut seat, scans);
        self.table.shared.load::<Settle>(&mut seat, 0);
    }
}

// The table for the marks, and for the pen.
fn share(
    alloc: Global,
    table: Board,
) -> Result<(Arc<Board, Global>, Arc<Board, Global>), AllocError>
    ensures { IfOk result (λ t. (arc_value t.0 ≡ table) × (arc_value t.1 ≡ table)) }
{
    let first = Arc::new(alloc, table)?;
    let second = Arc::try_clone(&first)?;
    Ok((first, second))
}

// Scans that have drawn nothing, each with a part of the seat's right to know all.
fn deal(
    alloc: Global,
    board: &Board,
    seat: &mut Place,
    limit: u32,
    scans: u32,
) -> Result<Vec<Scan>, AllocError>
    requires board { 0 < board.now.shared.table_id.words }
    requires seat { (seat.old.table_id ≡ board.now.shared.table_id) × (seat.old.me ≡ (view (scans + 1) [] [] [] [], [])) }
    ensures seat { OnOk result ((seat.new.table_id ≡ seat.old.table_id) × (seat.new.me ≡ (newcomer, []))) }
    ensures scans { IfOk result (λ v. v.items ≡ replicate scans (new_scan board.now.shared.table_id limit)) }
{
    let mut list = Vec::with_capacity(alloc, scans as usize)?;
    for dealt in 0..scans {
        let seat = board.shared.split_seat::<Deal>(seat);
        list.push(Scan {
            seat,
            limit,
            ended: false,
        })?;
    }
    Ok(list)
}

// The seat takes in all scans.
fn gather(board: &Board, seat: &mut Place, mut scans: Vec<Scan>)
    requires board { 0 < board.now.shared.table_id.words }
    requires seat { (seat.old.table_id ≡ board.now.shared.table_id) × (1 ≤ seat.old.me.0.parts) }
    requires scans { All (λ s. s.id ≡ board.now.shared.table_id) scans.items }
    ensures seat { (seat.new.table_id ≡ seat.old.table_id) × (seat.new.me.1 ≡ seat.old.me.1) }
    ensures gathered { Gathers scans.items seat.old.me.0 seat.new.me.0 }
{
    while let Some(scan) = scans.pop() {
        board.shared.join_seat::<Deal>(seat, scan.into_seat());
    }
}
