//! Reading a header.

ghost use Rattle.std.specs.Prelude.{ℕ, ◌≡◌, ◌≤◌, ◌↔◌, length, Ok, Err};
ghost use Rattle.vd_format.specs.declared.header.Header.{Header};
ghost use Rattle.vd_format.specs.Numbers.{IsBytes};
ghost use Rattle.vd_format.specs.Headers.{SpellsHeader, HasHeaderMagic, HasOtherVersion, HasWrongField, header_of, fields_in, zeros_in};

use crate::header::rules::{is_version, wrong_field};
use crate::header::{HEADER_MAGIC, Header, HeaderError};
use crate::numbers::{are_zeros, u32_at, u64_at};
use vd_law::entry::Sector;

#[tactic(auto, unfolding(crate::specs::Headers::fields_in))]
fn fields(bytes: &[u8]) -> Header
    requires { 56 ≤ length bytes.now }
    ensures { result ≡ fields_in bytes.now }
{
    Header {
        version: u32_at(bytes, 8),
        block: u32_at(bytes, 12),
        chunk: u32_at(bytes, 16),
        storage: u32_at(bytes, 20),
        slots: u32_at(bytes, 24),
        size: u64_at(bytes, 32),
        tracked: u64_at(bytes, 40),
        generation: u64_at(bytes, 48),
    }
}

fn has_zeros(bytes: &[u8]) -> bool
    requires { 56 ≤ length bytes.now }
    ensures { result ≡ zeros_in bytes.now }
{
    are_zeros(&bytes[28..32]) && are_zeros(&bytes[56..])
}

#[tactic(auto, unfolding(crate::specs::Headers::header_of, crate::specs::Headers::judged_fields, crate::specs::Numbers::has_magic))]
fn read(bytes: &[u8; 512]) -> Result<Header, HeaderError>
    ensures read { result ≡ header_of (record { bytes = bytes.now }) }
    ensures fits { IsBytes bytes.now }
{
    if !bytes.starts_with(&HEADER_MAGIC) {
        return Err(HeaderError::NotImage);
    }
    let header = fields(bytes);
    if !is_version(header.version) {
        return Err(HeaderError::Version(header.version));
    }
    match wrong_field(&header) {
        Some(field) => Err(HeaderError::Field(field)),
        None if has_zeros(bytes) => Ok(header),
        None => Err(HeaderError::Field(8)),
    }
}

/// The header that a sector spells, of version 1 or 2.
///
/// `NotImage` comes where the magic is not there, `Version` where the version is another one, and `Field` names the field
/// of the lowest number that breaks its rule. Nothing else is refused.
pub fn read_header(sector: &Sector) -> Result<Header, HeaderError>
    ensures read { result ≡ header_of sector.now }
    // A header is read exactly where the sector is its one spelling.
    ensures ok { (h : Header) → (result ≡ Ok h) ↔ SpellsHeader sector.now h }

    // The magic is judged first, then the version, then the fields by their numbers.
    ensures not_image { (result ≡ Err HeaderError.NotImage) ↔ (HasHeaderMagic sector.now → ⊥) }
    ensures version { (version : ℕ) → (result ≡ Err (HeaderError.Version version)) ↔ HasOtherVersion sector.now version }
    ensures field { (field : ℕ) → (result ≡ Err (HeaderError.Field field)) ↔ HasWrongField sector.now field }
{
    read(&sector.bytes)
}
