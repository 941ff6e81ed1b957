//! The lines of a trace, written.

ghost use Rattle.std.specs.Prelude.{◌≡◌, ◌+◌, ◌≤◌, [], ◌∷◌, ◌++◌, length, codes, decimal, OnErr};
ghost use Rattle.std.specs.List.{All, flat_map, join_with_byte};
ghost use Rattle.hex.specs.Hex.{encode_lower};
ghost use Rattle.vd_io.specs.Streams.{WritesText};
ghost use Rattle.vd_trace.specs.Texts.{work_fields};
ghost use Rattle.vd_trace.specs.Keeping.{work_of, HasSectorAmong};
ghost use Rattle.vd_trace.specs.Printing.{item_text, trace_shown_text};
ghost use Rattle.vd_law.specs.Counts.{Rose};

use crate::kept::{Item, Shown, Stored};
use crate::text::{Text, push_hex, push_number, push_word};
use vd_io::Failed;
use vd_io::sink::Sink;
use vd_law::entry::Sector;

/// Appends a kind, and numbers behind it, each behind a blank.
fn push_range(text: &mut Text, kind: &[u8], first: u64, count: u32)
    requires { length text.old.items + length kind.now + 42 ≤ 1100 }
    ensures items { text.new.items ≡ text.old.items ++ (kind.now ++ codes " " ++ decimal first ++ codes " " ++ decimal count) }
    ensures longer { length text.new.items ≤ length text.old.items + length kind.now + 42 }
{
    push_word(text, kind);
    push_word(text, b" ");
    push_number(text, first);
    push_word(text, b" ");
    push_number(text, u64::from(count));
}

fn push_fill(text: &mut Text, first: u64, count: u32, byte: u8)
    requires { length text.old.items ≤ 30 }
    ensures items { text.new.items ≡ text.old.items ++ (codes "W " ++ decimal first ++ codes " " ++ decimal count ++ codes " " ++ encode_lower (byte ∷ [])) }
    ensures longer { length text.new.items ≤ 80 }
{
    push_range(text, b"W", first, count);
    push_word(text, b" ");
    push_hex(text, &[byte]);
}

fn push_put(text: &mut Text, first: u64, sector: &Sector)
    requires { length text.old.items ≤ 30 }
    ensures items { text.new.items ≡ text.old.items ++ (codes "X " ++ decimal first ++ codes " " ++ encode_lower sector.now.bytes) }
    ensures longer { length text.new.items ≤ 1080 }
{
    push_word(text, b"X ");
    push_number(text, first);
    push_word(text, b" ");
    push_hex(text, sector.bytes.as_slice());
}

/// Appends what is asked.
fn push_work(text: &mut Text, work: Stored, sectors: &[Sector])
    requires stored { HasSectorAmong (length sectors.now) work }
    requires room { length text.old.items ≤ 30 }
    ensures items { text.new.items ≡ text.old.items ++ join_with_byte 32 (work_fields (work_of sectors.now work)) }
    ensures longer { length text.new.items ≤ 1080 }
{
    match work {
        Stored::Read { first, count } => push_range(text, b"R", first, count),
        Stored::Fill { first, count, byte } => push_fill(text, first, count, byte),
        Stored::Put { first, place } => push_put(text, first, &sectors[place as usize]),
        Stored::Flush => push_word(text, b"F"),
    }
}

/// Writes a line that asks, in one write.
fn put_item<O: Sink>(out: &mut O, item: Item, sectors: &[Sector]) -> Result<(), Failed>
    requires { HasSectorAmong (length sectors.now) item.work }
    ensures told_before { O.tells out.new → O.tells out.old }
    ensures writes { O.tells out.new → WritesText (item_text sectors.now item) result (O.written out.old) (O.written out.new) }
    ensures no_fewer_faults { O.faults out.old ≤ O.faults out.new }
    ensures cause { OnErr result (Rose (O.faults out.old) (O.faults out.new)) }
{
    let mut text = Text::new();
    push_number(&mut text, u64::from(item.guest));
    push_word(&mut text, b" ");
    push_work(&mut text, item.work, sectors);
    push_word(&mut text, b"\n");
    out.write(text.as_slice())
}

/// Writes a line that shows, in one write.
fn put_shown<O: Sink>(out: &mut O, shown: Shown) -> Result<(), Failed>
    ensures told_before { O.tells out.new → O.tells out.old }
    ensures writes { O.tells out.new → WritesText (trace_shown_text shown) result (O.written out.old) (O.written out.new) }
    ensures no_fewer_faults { O.faults out.old ≤ O.faults out.new }
    ensures cause { OnErr result (Rose (O.faults out.old) (O.faults out.new)) }
{
    let mut text = Text::new();
    push_range(&mut text, b"S", shown.first, shown.count);
    push_word(&mut text, b"\n");
    out.write(text.as_slice())
}

/// Writes the lines that ask. After Failed a front of them is written.
pub fn put_items<O: Sink>(out: &mut O, items: &[Item], sectors: &[Sector]) -> Result<(), Failed>
    requires { All (λ item. HasSectorAmong (length sectors.now) item.work) items.now }
    ensures told_before { O.tells out.new → O.tells out.old }
    ensures writes { O.tells out.new → WritesText (flat_map (item_text sectors.now) items.now) result (O.written out.old) (O.written out.new) }
    ensures no_fewer_faults { O.faults out.old ≤ O.faults out.new }
    ensures cause { OnErr result (Rose (O.faults out.old) (O.faults out.new)) }
{
    for item in items {
        put_item(out, *item, sectors)?;
    }
    Ok(())
}

/// Writes the lines that show. After Failed a front of them is written.
pub fn put_shows<O: Sink>(out: &mut O, shows: &[Shown]) -> Result<(), Failed>
    ensures told_before { O.tells out.new → O.tells out.old }
    ensures writes { O.tells out.new → WritesText (flat_map trace_shown_text shows.now) result (O.written out.old) (O.written out.new) }
    ensures no_fewer_faults { O.faults out.old ≤ O.faults out.new }
    ensures cause { OnErr result (Rose (O.faults out.old) (O.faults out.new)) }
{
    for shown in shows {
        put_shown(out, *shown)?;
    }
    Ok(())
}
