//! Lines, read.

ghost use Rattle.std.specs.Prelude.{◌≡◌, ◌≢◌, ◌↔◌, List, ◌∷◌, [], length, map, Some};
ghost use Rattle.std.specs.List.{list_any};
ghost use Rattle.vd_trace.specs.declared.line.Line.{Line};
ghost use Rattle.vd_trace.specs.Lines.{is_show, IsGood};
ghost use Rattle.vd_trace.specs.LineReading.{guest_in, count_of_field, byte_in, sector_of_field, work_in, show_in, line_of_fields, line_in, may_follow};

use crate::fields::fields_of;
use crate::hex_digits::bytes_in;
use crate::line::{Line, Work};
use vd_decimal::read_number;
use vd_law::entry::Sector;

/// The most digits of a number.
const DIGITS: usize = 10;

/// The most sectors of a request.
const MOST_SECTORS: u64 = 2048;

/// The most bytes of a line, without its end.
pub const MOST_BYTES: usize = 1100;

fn guest_in(field: &[u8], guests: u32) -> Option<u32>
    ensures { result ≡ guest_in guests field.now }
{
    let guest = read_number(field, DIGITS)?;
    if 1 <= guest && guest <= guests.into() {
        Some(guest as u32)
    } else {
        None
    }
}

fn count_in(field: &[u8]) -> Option<u32>
    ensures { result ≡ count_of_field field.now }
{
    let count = read_number(field, DIGITS)?;
    if 1 <= count && count <= MOST_SECTORS {
        Some(count as u32)
    } else {
        None
    }
}

fn byte_in(field: &[u8]) -> Option<u8>
    ensures { result ≡ byte_in field.now }
{
    let [byte] = bytes_in::<1>(field)?;
    Some(byte)
}

fn sector_in(field: &[u8]) -> Option<Sector>
    ensures { result ≡ sector_of_field field.now }
{
    let bytes = bytes_in(field)?;
    Some(Sector { bytes })
}

fn read_or_put(kind: &[u8], first: &[u8], last: &[u8]) -> Option<Work>
    ensures { result ≡ work_in (kind.now ∷ first.now ∷ last.now ∷ []) }
{
    if kind == b"R".as_slice() {
        let first = read_number(first, DIGITS)?;
        let count = count_in(last)?;
        return Some(Work::Read { first, count });
    }
    if kind == b"X".as_slice() {
        let first = read_number(first, DIGITS)?;
        let sector = sector_in(last)?;
        return Some(Work::Put { first, sector });
    }
    None
}

fn fill_in(kind: &[u8], first: &[u8], count: &[u8], byte: &[u8]) -> Option<Work>
    ensures { result ≡ work_in (kind.now ∷ first.now ∷ count.now ∷ byte.now ∷ []) }
{
    if kind != b"W".as_slice() {
        return None;
    }
    let first = read_number(first, DIGITS)?;
    let count = count_in(count)?;
    let byte = byte_in(byte)?;
    Some(Work::Fill { first, count, byte })
}

fn flush_in(kind: &[u8]) -> Option<Work>
    ensures { result ≡ work_in (kind.now ∷ []) }
{
    if kind == b"F".as_slice() {
        Some(Work::Flush)
    } else {
        None
    }
}

fn work_in(fields: &[&[u8]]) -> Option<Work>
    ensures { result ≡ work_in (map (λ f. f.now) fields.now) }
{
    match fields {
        [kind] => flush_in(kind),
        [kind, first, last] => read_or_put(kind, first, last),
        [kind, first, count, byte] => fill_in(kind, first, count, byte),
        _ => None,
    }
}

fn show_in(kind: &[u8], first: &[u8], count: &[u8]) -> Option<Line>
    ensures { result ≡ show_in kind.now first.now count.now }
{
    if kind != b"S".as_slice() {
        return None;
    }
    let first = read_number(first, DIGITS)?;
    let count = count_in(count)?;
    Some(Line::Shows { first, count })
}

fn asks_in(guest: &[u8], work: &[&[u8]], guests: u32) -> Option<Line>
    requires { length work.now ≢ 2 }
    ensures { result ≡ line_of_fields guests (guest.now ∷ map (λ f. f.now) work.now) }
{
    let guest = guest_in(guest, guests)?;
    let work = work_in(work)?;
    Some(Line::Asks { guest, work })
}

fn fields_in(fields: &[&[u8]], guests: u32) -> Option<Line>
    ensures { result ≡ line_of_fields guests (map (λ f. f.now) fields.now) }
{
    match fields {
        [] => None,
        [kind, first, count] => show_in(kind, first, count),
        [guest, work @ ..] => asks_in(guest, work, guests),
    }
}

/// What the line says, if it is in the grammar for this many guests.
pub fn line_in(line: &[u8], guests: u32) -> Option<Line>
    ensures { result ≡ line_in guests line.now }
{
    if line.is_empty() || line[0] == b'#' {
        return Some(Line::Nothing);
    }
    let fields = fields_of(line)?;
    fields_in(fields.as_slice(), guests)
}

/// Whether the line may stand behind a line that shows.
fn may_follow(says: &Line, shown: bool) -> bool
    ensures { result ≡ may_follow shown says.now }
{
    match says {
        Line::Nothing => true,
        Line::Asks { guest: _, work: _ } => !shown,
        Line::Shows { first: _, count: _ } => true,
    }
}

/// What the line says, if it is in the grammar behind lines of which some show or none does.
pub fn good_line(line: &[u8], guests: u32, shown: bool) -> Option<Line>
    ensures { (before : List Line) → list_any is_show before ≡ shown → (says : Line) → (result ≡ Some says) ↔ IsGood guests before line.now says }
{
    if line.len() > MOST_BYTES {
        return None;
    }
    let says = line_in(line, guests)?;
    if may_follow(&says, shown) {
        Some(says)
    } else {
        None
    }
}
