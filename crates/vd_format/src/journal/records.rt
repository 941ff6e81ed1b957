//! The record of a slot of the journal.

ghost use Rattle.std.specs.Prelude.{ℕ, ◌≡◌, ◌+◌, ◌*◌, ◌^◌, ◌<◌, ◌≤◌, ◌↔◌, ◌&&◌, ◌==◌, List, length, replicate, Some, None, IfSome};
ghost use Rattle.vd_format.specs.declared.journal.Fact2.{Fact2};
ghost use Rattle.vd_format.specs.Numbers.{IsBytes, u64_at, put_at, has_magic};
ghost use Rattle.vd_format.specs.Entries.{has_kind};
ghost use Rattle.vd_format.specs.Records.{ShapeFits, AreFacts, SpellsRecord, IsOutsideGrammar, HasRecord, Facts, record_magic, fact_bytes, record_bytes, slot_of};
ghost use Rattle.vd_format.specs.SlotReading.{slot_for, next_fact, facts_in, record_facts};

const MOST_FACTS: u32 = 24;

use crate::journal::facts::{Facts2, Slot2};
use crate::journal::{Fact2, RECORD_MAGIC};
use crate::map::Shape2;
use crate::map::entries::{entry_from, has_kind, is_entry, put_entry};
use crate::numbers::{are_zeros, put, put_u32, put_u64, u32_at, u64_at};
use vd_law::entry::Sector;

/// Writes the fact from this byte on.
pub fn put_fact(bytes: &mut [u8], at: usize, fact: &Fact2)
    requires { at + 20 ≤ length bytes.old }
    ensures { bytes.new ≡ put_at bytes.old at (fact_bytes fact.now) }
{
    put_u32(bytes, at, fact.chunk);
    put_entry(bytes, at + 4, &fact.entry);
}

fn put_record(bytes: &mut [u8], facts: &Facts2, generation: u64)
    requires { bytes.old ≡ replicate 512 0 }
    ensures { bytes.new ≡ record_bytes generation facts.now }
{
    put(bytes, 0, &RECORD_MAGIC);
    put_u64(bytes, 8, generation);
    put_u32(bytes, 16, facts.len());
    for place in 0..facts.len() {
        put_fact(bytes, 24 + 20 * place as usize, &facts.get(place));
    }
}

/// The one spelling of a record of these facts, with the shape's generation. The facts are in the grammar: from 1 to 24,
/// their chunks rise and each entry is one that the map may have.
pub fn write_record2(facts: &Facts2, shape: &Shape2) -> Sector
    requires { AreFacts shape.now facts.now }
    ensures spelled { result.bytes ≡ record_bytes shape.now.generation facts.now }
    ensures read { slot_of shape.now result ≡ Facts facts.now }
{
    // As in `read`.
    let _chunks = shape.chunks;
    let _storage = shape.storage;
    let generation = shape.generation;
    let mut sector = Sector::filled(0);
    put_record(&mut sector.bytes, facts, generation);
    sector
}

/// The fact from this byte on, where it is in the grammar and its chunk is at least `from`.
#[tactic(auto, unfolding(crate::specs::Records::fact_from, crate::specs::SlotReading::next_fact, crate::specs::SlotReading::is_fact))]
fn read_fact(bytes: &[u8], at: usize, shape: &Shape2, from: u32) -> Option<Fact2>
    requires { at + 20 ≤ length bytes.now }
    ensures next { result ≡ next_fact shape.now from bytes.now at }
    ensures room { IfSome result (λ fact. fact.chunk + 1 < 2 ^ 32) }
{
    let fact = Fact2 {
        chunk: u32_at(bytes, at),
        entry: entry_from(bytes, at + 4),
    };
    if from <= fact.chunk
        && fact.chunk < shape.chunks
        && is_entry(shape, fact.chunk, &fact.entry)
        && has_kind(bytes, at + 4)
    {
        Some(fact)
    } else {
        None
    }
}

fn read_facts(bytes: &[u8], count: u32, shape: &Shape2) -> Option<Facts2>
    requires length { length bytes.now ≡ 512 }
    requires count { count ≤ 24 }
    ensures { result ≡ facts_in shape.now 0 bytes.now 24 count }
{
    let mut facts = Facts2::new();
    let mut from = 0;
    for place in 0..count {
        let fact = read_fact(bytes, 24 + 20 * place as usize, shape, from)?;
        from = fact.chunk + 1;
        facts.push(fact);
    }
    Some(facts)
}

/// The facts of a record, where it is in the grammar.
fn record_facts(bytes: &[u8], shape: &Shape2) -> Option<Facts2>
    requires { length bytes.now ≡ 512 }
    ensures { result ≡ record_facts shape.now bytes.now }
{
    let count = u32_at(bytes, 16);
    if count < 1 || count > MOST_FACTS {
        return None;
    }
    let end = 24 + 20 * count as usize;
    if !are_zeros(&bytes[20..24]) || !are_zeros(&bytes[end..]) {
        return None;
    }
    read_facts(bytes, count, shape)
}

#[tactic(auto, unfolding(crate::specs::Numbers::has_magic))]
fn counts(bytes: &[u8], generation: u64) -> bool
    requires { length bytes.now ≡ 512 }
    ensures { result ≡ (has_magic record_magic bytes.now && (u64_at bytes.now 8 == generation)) }
{
    bytes.starts_with(&RECORD_MAGIC) && u64_at(bytes, 8) == generation
}

fn read(bytes: &[u8; 512], shape: &Shape2) -> Slot2
    ensures read { result ≡ slot_for (slot_of shape.now (record { bytes = bytes.now })) }
    ensures fits { IsBytes bytes.now }
    ensures small { ShapeFits shape.now }
{
    // That the numbers are below 2^32 is known of those that were read.
    let _chunks = shape.chunks;
    let _storage = shape.storage;
    let generation = shape.generation;
    if !counts(bytes, generation) {
        return Slot2::Other;
    }
    match record_facts(bytes, shape) {
        Some(facts) => Slot2::Counts(facts),
        None => Slot2::Bad,
    }
}

/// What a slot of the journal says to an image of this shape.
///
/// `Other` comes exactly where the slot has another magic or another generation. Of the slots that count, `Bad` are those
/// whose record is outside the grammar.
pub fn read_record2(sector: &Sector, shape: &Shape2) -> Slot2
    ensures read { result ≡ slot_for (slot_of shape.now sector.now) }
    // Facts are read exactly where the sector is the one spelling of them, and they are in the grammar.
    ensures counts { (facts : List Fact2) → (result ≡ Slot2.Counts facts) ↔ SpellsRecord sector.now shape.now facts }
    ensures other { (result ≡ Slot2.Other) ↔ (HasRecord sector.now shape.now.generation → ⊥) }
    ensures bad { (result ≡ Slot2.Bad) ↔ IsOutsideGrammar sector.now shape.now }
{
    read(&sector.bytes, shape)
}
