//! What is kept of a trace while it is read: its lines that ask, its lines that show, and nothing of the others.

ghost use Rattle.std.specs.Prelude.{◌≡◌, ◌↔◌, ◌+◌, ◌≤◌, ◌<◌, ℕ, IsTrue, List, [], ◌∷◌, ◌++◌, length, replicate, OnOk, IfOk, MatchResult};
ghost use Rattle.vd_trace.specs.declared.line.Line.TheVariants.{Asks, Shows};
ghost use Rattle.vd_trace.specs.Lines.{sectors_of_line, sectors_of_work};
ghost use Rattle.vd_trace.specs.Keeping.{work_of, sectors_in, lists, HasSectorAmong, GrowsByAtMost, PutsAt, CanTake, AddsItem, AddsLine, SameCounts, CountsLine, HasReadLines, Stops, HasNextLine};

use crate::error::TraceError;
use crate::line::{Line, Work};
use crate::reading::good_line;
use std::alloc::{AllocError, Global};
use vd_law::entry::Sector;

/// The most lines of a trace.
const MOST_LINES: u32 = 500_000;

/// The most sectors in all lines of a trace.
const MOST_SECTORS: u64 = 262_144;

/// What a guest asks, where a sector of its own lies among the trace's sectors.
#[derive(Clone, Copy, Drop)]
pub enum Stored {
    Read { first: u64, count: u32 },
    Fill { first: u64, count: u32, byte: u8 },
    Put { first: u64, place: u32 },
    Flush,
}

/// A line that asks.
#[derive(Clone, Copy, Drop)]
pub struct Item {
    pub number: u32,
    pub guest: u32,
    pub work: Stored,
}

/// A line that shows.
#[derive(Clone, Copy, Drop)]
pub struct Shown {
    pub number: u32,
    pub first: u64,
    pub count: u32,
}

/// The lines so far. `places` has for each guest where its items stand.
#[derive(Drop)]
pub struct Draft {
    pub guests: u32,
    pub items: Vec<Item>,
    pub sectors: Vec<Sector>,
    pub places: Vec<Vec<u32>>,
    pub shows: Vec<Shown>,
    pub lines: u32,
    pub total: u64,
}

fn keep_work(sectors: &mut Vec<Sector>, work: Work) -> Result<Stored, AllocError>
    requires { length sectors.old.items ≤ 262144 }
    ensures work { IfOk result (λ s. work_of sectors.new.items s ≡ work) }
    ensures stored { IfOk result (λ s. HasSectorAmong (length sectors.new.items) s) }
    ensures same { IfOk result (λ s. sectors_in s ≡ sectors_of_work work) }
    ensures grows { OnOk result (GrowsByAtMost (sectors_of_work work) sectors.old.items sectors.new.items) }
{
    match work {
        Work::Read { first, count } => Ok(Stored::Read { first, count }),
        Work::Fill { first, count, byte } => Ok(Stored::Fill { first, count, byte }),
        Work::Put { first, sector } => {
            let place = sectors.len() as u32;
            sectors.push(sector)?;
            Ok(Stored::Put { first, place })
        }
        Work::Flush => Ok(Stored::Flush),
    }
}

/// Puts a place behind those of the guest of this index.
fn push_place(places: &mut Vec<Vec<u32>>, index: usize, at: u32) -> Result<(), AllocError>
    requires { index < length places.old.items }
    ensures { OnOk result (PutsAt index at places.old.items places.new.items) }
{
    let own = &mut places[index];
    own.push(at)?;
    Ok(())
}

fn add_item(draft: &mut Draft, guest: u32, work: Work) -> Result<(), AllocError>
    requires { CanTake (Asks guest work) draft.old }
    ensures adds { OnOk result (AddsItem guest work draft.old draft.new) }
    ensures shows { OnOk result (draft.new.shows.items ≡ draft.old.shows.items) }
    ensures counts { OnOk result (SameCounts draft.old draft.new) }
{
    let work = keep_work(&mut draft.sectors, work)?;
    let at = draft.items.len() as u32;
    let number = draft.lines + 1;
    draft.items.push(Item {
        number,
        guest,
        work,
    })?;
    push_place(&mut draft.places, guest as usize - 1, at)
}

fn add_shown(draft: &mut Draft, first: u64, count: u32) -> Result<(), AllocError>
    requires { CanTake (Shows first count) draft.old }
    ensures adds { OnOk result (AddsLine (Shows first count) draft.old draft.new) }
    ensures counts { OnOk result (SameCounts draft.old draft.new) }
{
    let number = draft.lines + 1;
    draft.shows.push(Shown {
        number,
        first,
        count,
    })?;
    Ok(())
}

fn add(draft: &mut Draft, says: Line) -> Result<(), AllocError>
    requires { CanTake says draft.old }
    ensures adds { OnOk result (AddsLine says draft.old draft.new) }
    ensures counts { OnOk result (SameCounts draft.old draft.new) }
{
    match says {
        Line::Nothing => Ok(()),
        Line::Asks { guest, work } => add_item(draft, guest, work),
        Line::Shows { first, count } => add_shown(draft, first, count),
    }
}

/// How many sectors the line reads, writes or shows.
fn sectors_of_line(says: &Line) -> u64
    ensures { result ≡ sectors_of_line says.now }
{
    match says {
        Line::Nothing => 0,
        Line::Asks { guest: _, work } => match work {
            Work::Read { first: _, count } => u64::from(*count),
            Work::Fill {
                first: _,
                count,
                byte: _,
            } => u64::from(*count),
            Work::Put {
                first: _,
                sector: _,
            } => 1,
            Work::Flush => 0,
        },
        Line::Shows { first: _, count } => u64::from(*count),
    }
}

/// Whether the limits are kept with this line.
fn is_within(draft: &Draft, says: &Line) -> bool
    requires { draft.now.total ≤ 262144 }
    ensures { IsTrue result ↔ ((draft.now.lines < 500000) × (draft.now.total + sectors_of_line says.now ≤ 262144)) }
{
    draft.lines < MOST_LINES && sectors_of_line(says) <= MOST_SECTORS - draft.total
}

/// Keeps what one more line says.
fn keep(draft: &mut Draft, says: Line) -> Result<(), AllocError>
    requires { CanTake says draft.old }
    ensures { OnOk result (CountsLine says draft.old draft.new) }
{
    let sectors = sectors_of_line(&says);
    add(draft, says)?;
    draft.lines += 1;
    draft.total += sectors;
    Ok(())
}

/// Reads one more line.
pub fn take(draft: &mut Draft, line: &[u8]) -> Result<(), TraceError>
    requires { (done : List (List ℕ)) × HasReadLines done draft.old }
    ensures reads { (done : List (List ℕ)) → HasReadLines done draft.old →
        MatchResult result (λ u. HasReadLines (done ++ line.now ∷ []) draft.new) (Stops draft.old.guests done line.now) }
    ensures next { OnOk result (HasNextLine draft.old draft.new) }
{
    let number = u64::from(draft.lines) + 1;
    let shown = !draft.shows.is_empty();
    let Some(says) = good_line(line, draft.guests, shown) else {
        return Err(TraceError::Bad { line: number });
    };
    if !is_within(draft, &says) {
        return Err(TraceError::TooMuch { line: number });
    }
    keep(draft, says)?;
    Ok(())
}

fn empty_places(alloc: Global, guests: u32) -> Result<Vec<Vec<u32>>, AllocError>
    ensures { IfOk result (λ places. lists places.items ≡ replicate guests []) }
{
    let mut places = Vec::with_capacity(alloc, guests as usize)?;
    for _ in 0..guests {
        places.push(Vec::new(alloc))?;
    }
    Ok(places)
}

/// No lines yet, for so many guests.
pub fn empty_draft(alloc: Global, guests: u32) -> Result<Draft, AllocError>
    ensures read { IfOk result (λ draft. HasReadLines [] draft) }
    ensures guests { IfOk result (λ draft. draft.guests ≡ guests) }
{
    let places = empty_places(alloc, guests)?;
    Ok(Draft {
        guests,
        items: Vec::new(alloc),
        sectors: Vec::new(alloc),
        places,
        shows: Vec::new(alloc),
        lines: 0,
        total: 0,
    })
}
