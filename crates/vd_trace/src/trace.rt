//! Traces, kept so that each guest's requests are found by their number.

ghost use Rattle.std.specs.Prelude.{◌≡◌, ◌↔◌, ◌≤◌, ◌<◌, ◌+◌, true, false, IsTrue, List, [], length, replicate, drop, slice_get, Some, find, nat_lt, OnOk, OnErr, IfOk, IfErr};
ghost use Rattle.std.specs.Option.{option_map, option_or};
ghost use Rattle.vd_io.specs.Streams.{WritesText};
ghost use Rattle.vd_trace.specs.declared.line.Line.{Line};
ghost use Rattle.vd_trace.specs.declared.error.TraceError.TheVariants.{Source as SourceFault};
ghost use Rattle.vd_trace.specs.Traces.{SpellsTrace, Showing, script, work_asked, works_asked};
ghost use Rattle.vd_trace.specs.Scripts.{ReadsTrace, Accepts, request_of, HasRange, sectors_handed, asks_past, shows_past};
ghost use Rattle.vd_trace.specs.Streaming.{FailsBehind};
ghost use Rattle.vd_trace.specs.Texts.{trace_text, ReadsBack, IsRangeOfLine, IsRequest};
ghost use Rattle.vd_trace.specs.Keeping.{work_of, sectors_in, end_in, HasSectorAmong};
ghost use Rattle.vd_law.specs.Counts.{Rose};
ghost use Rattle.vd_law.specs.Needs.{requests_room};

use crate::error::TraceError;
use crate::kept::{Draft, Item, Shown, Stored, empty_draft};
use crate::needs::needed;
use crate::printing::{put_items, put_shows};
use crate::streaming::read_lines;
use std::alloc::Global;
use std::marker::Model;
use vd_io::Failed;
use vd_io::sink::Sink;
use vd_io::source::Source;
use vd_law::entry::{Room, Sector};

/// What is asked of the disk. FIRST and COUNT are sectors.
#[derive(Clone, Copy, Debug, PartialEq, Eq, Drop)]
pub enum Asked {
    Read { first: u64, count: u64 },
    Write { first: u64, count: u64 },
    Flush,
}

/// A trace: what each guest asks, in order, and which sectors are shown in the end.
#[derive(Drop)]
pub struct Trace {
    items: Vec<Item>,
    sectors: Vec<Sector>,
    places: Vec<Vec<u32>>,
    shows: Vec<Shown>,
}

impl Model for Trace {
    ghost use Rattle.vd_trace.specs.Traces.{Script};

    ghost Value = { Script };

    ghost use Rattle.vd_trace.specs.TraceFields.{script_in, IsTrace};

    ghost view = { script_in };

    ghost invariant = { IsTrace };
}

/// Gives a request, and puts the sectors that it writes at the front of `content`.
fn hand_out(sectors: &[Sector], work: Stored, content: &mut [Sector]) -> Asked
    requires stored { HasSectorAmong (length sectors.now) work }
    requires room { sectors_in work ≤ length content.old }
    ensures request { request_of result content.new ≡ work_asked (work_of sectors.now work) }
    ensures range { IsRequest (work_of sectors.now work) → HasRange result }
    ensures others { drop (sectors_handed result) content.new ≡ drop (sectors_handed result) content.old }
{
    match work {
        Stored::Read { first, count } => Asked::Read {
            first,
            count: u64::from(count),
        },
        Stored::Fill { first, count, byte } => {
            fill(&mut content[..count as usize], Sector::filled(byte));
            Asked::Write {
                first,
                count: u64::from(count),
            }
        }
        Stored::Put { first, place } => {
            content[0] = sectors[place as usize];
            Asked::Write { first, count: 1 }
        }
        Stored::Flush => Asked::Flush,
    }
}

fn fill(content: &mut [Sector], sector: Sector)
    ensures { content.new ≡ replicate (length content.old) sector }
{
    for place in content.iter_mut() {
        *place = sector;
    }
}

/// Whether the range lies past a disk of so many sectors.
fn is_past(first: u64, count: u64, size: u64) -> bool
    ensures { result ≡ nat_lt size (first + count) }
{
    first > size || count > size - first
}

fn item_past(work: Stored, size: u64) -> bool
    ensures { result ≡ nat_lt size (end_in work) }
{
    match work {
        Stored::Read { first, count } => is_past(first, u64::from(count), size),
        Stored::Fill {
            first,
            count,
            byte: _,
        } => is_past(first, u64::from(count), size),
        Stored::Put { first, place: _ } => is_past(first, 1, size),
        Stored::Flush => false,
    }
}

fn items_past(items: &[Item], size: u64) -> Option<u64>
    ensures { result ≡ option_map (λ i. i.number) (find (λ i. nat_lt size (end_in i.work)) items.now) }
{
    items
        .iter()
        .find(|item| item_past(item.work, size))
        .map(|item| u64::from(item.number))
}

fn lines_past(shows: &[Shown], size: u64) -> Option<u64>
    ensures { result ≡ option_map (λ s. s.number) (find (λ s. nat_lt size (s.first + s.count)) shows.now) }
{
    shows
        .iter()
        .find(|shown| is_past(shown.first, u64::from(shown.count), size))
        .map(|shown| u64::from(shown.number))
}

impl Trace {
    /// Reads a trace of so many guests from a source, to its end and in pieces of any size.
    ///
    /// A line is empty, or a comment that begins with `#`, or one of `G R FIRST COUNT`, `G W FIRST COUNT HH`, `G X FIRST HEX`,
    /// `G F` and `S FIRST COUNT`, behind which no line of a guest may come. The first line that is not in the grammar gives
    /// Bad; with the first that is in it and passes the limit of 500,000 lines or of 262,144 sectors in all, it is TooMuch. Where the source
    /// failed, no line that it had given is Bad or TooMuch.
    pub fn read<I: Source>(alloc: Global, guests: u32, source: &mut I) -> Result<Trace, TraceError>
        ensures reads { I.tells source.new → ReadsTrace guests (I.rest source.old) result }
        ensures accepts { I.tells source.new → (says : List Line) → SpellsTrace guests (I.rest source.old) says → Accepts guests says result }
        ensures behind { I.tells source.new → IfErr result (λ e. e ≡ SourceFault → FailsBehind guests (I.rest source.old) (I.rest source.new)) }
        ensures ended { I.tells source.new → OnOk result (I.rest source.new ≡ []) }
        ensures guests { IfOk result (λ trace. trace.guests ≡ guests) }
        ensures told_before { I.tells source.new → I.tells source.old }
        ensures no_fewer_faults { I.faults source.old ≤ I.faults source.new }
        ensures cause { IfErr result (λ e. e ≡ SourceFault → Rose (I.faults source.old) (I.faults source.new)) }
    {
        let mut draft = empty_draft(alloc, guests)?;
        read_lines(&mut draft, source)?;
        let Draft {
            guests: _,
            items,
            sectors,
            places,
            shows,
            lines: _,
            total: _,
        } = draft;
        Ok(Trace {
            items,
            sectors,
            places,
            shows,
        })
    }

    fn is_guest(&self, guest: u32) -> bool
        ensures inside { IsTrue result ↔ ((1 ≤ guest) × (guest ≤ self.now.guests)) }
        ensures outside { result ≡ false → length (script self.now guest) ≡ 0 }
    {
        1 <= guest && guest as usize <= self.places.len()
    }

    /// How many requests the guest has. 0 for a guest that the trace isn't for.
    pub fn count(&self, guest: u32) -> u64
        ensures { result ≡ length (script self.now guest) }
    {
        if !self.is_guest(guest) {
            return 0;
        }
        self.places[guest as usize - 1].len() as u64
    }

    /// The guest's request of this number, counted from 0: of 1 to 2,048 sectors, unless it is a flush. The sectors that it
    /// writes are put at the front of `content`.
    pub fn request(&self, guest: u32, at: u64, content: &mut [Sector]) -> Asked
        requires at { at < length (script self.now guest) }
        requires room { length content.old ≡ 2048 }
        ensures request { slice_get (script self.now guest) at ≡ Some (request_of result content.new) }
        ensures range { HasRange result }
        ensures others { drop (sectors_handed result) content.new ≡ drop (sectors_handed result) content.old }
    {
        let place = self.places[guest as usize - 1][at as usize];
        hand_out(
            self.sectors.as_slice(),
            self.items[place as usize].work,
            content,
        )
    }

    /// The number of the first line whose range lies past a disk of so many sectors, if one does.
    pub fn past(&self, size: u64) -> Option<u64>
        ensures { result ≡ option_or (asks_past size self.now.asks) (shows_past size self.now.shows) }
    {
        items_past(self.items.as_slice(), size).or(lines_past(self.shows.as_slice(), size))
    }

    /// How many lines show sectors.
    pub fn shows(&self) -> u64
        ensures { result ≡ length self.now.shows }
    {
        self.shows.len() as u64
    }

    /// FIRST and COUNT of the line of this number, counted from 0, among those that show sectors. COUNT is from 1 to 2,048.
    pub fn show(&self, at: u64) -> (u64, u64)
        requires { at < length self.now.shows }
        ensures shown { (shown : Showing) → slice_get self.now.shows at ≡ Some shown → (result.0 ≡ shown.first) × (result.1 ≡ shown.count) }
        ensures range { IsRangeOfLine result.0 result.1 }
    {
        let shown = self.shows[at as usize];
        (shown.first, u64::from(shown.count))
    }

    /// The room that these requests take in a history at most, on a disk whose blocks have so many sectors: two events and
    /// one for each piece of a read, two and two for each piece of a write, and two for a flush; the sectors of a read once,
    /// and those of a write twice. It is within 1,524,288 events and 524,288 sectors.
    pub fn need(&self, block: u32) -> Room
        requires { 0 < block }
        ensures need { result ≡ requests_room block (works_asked self.now.asks) }
        ensures events { result.events ≤ 1524288 }
        ensures sectors { result.sectors ≤ 524288 }
    {
        needed(self.items.as_slice(), block)
    }

    /// Writes the trace, each line in one write: its lines that ask and then those that show, in lower case, with no comments
    /// or empty lines. After Failed a front of it is written. What was written says the same when it is read, though the
    /// numbers of its lines may differ.
    pub fn print<O: Sink>(&self, out: &mut O) -> Result<(), Failed>
        ensures told_before { O.tells out.new → O.tells out.old }
        ensures writes { O.tells out.new → WritesText (trace_text self.now) result (O.written out.old) (O.written out.new) }
        ensures reads_back { ReadsBack self.now }
        ensures no_fewer_faults { O.faults out.old ≤ O.faults out.new }
        ensures cause { OnErr result (Rose (O.faults out.old) (O.faults out.new)) }
    {
        put_items(out, self.items.as_slice(), self.sectors.as_slice())?;
        put_shows(out, self.shows.as_slice())
    }
}
