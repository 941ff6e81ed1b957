//! The rules of a header's fields.

ghost use Rattle.std.specs.Prelude.{◌≡◌, ◌≤◌, ◌↔◌, IsTrue, true};
ghost use Rattle.vd_format.specs.Headers.{IsValid, is_version, is_block, is_chunk, is_size, is_storage, is_slots, is_tracked, is_generation, judged_fields, first_wrong};

use crate::header::Header;
use crate::header::areas::chunks_in;

const BLOCK_SIZES: [u32; 5] = [8, 16, 32, 64, 128];

const CHUNK_SIZES: [u32; 7] = [1, 2, 4, 8, 16, 32, 64];

const MOST_SECTORS: u64 = 67_108_864;

const MOST_SECTORS_OF_VERSION_1: u64 = 16_777_216;

const MOST_SLOTS: u32 = 4096;

const LAST_GENERATION: u64 = (1 << 63) - 1;

#[tactic(auto, unfolding(crate::specs::Headers::is_version))]
pub fn is_version(version: u32) -> bool
    ensures { result ≡ is_version version }
{
    version == 1 || version == 2
}

#[tactic(auto, unfolding(crate::specs::Headers::is_block))]
fn is_block(block: u32) -> bool
    ensures listed { result ≡ is_block block }
    ensures some { IsTrue result → 1 ≤ block }
{
    BLOCK_SIZES.contains(&block)
}

#[tactic(auto, unfolding(crate::specs::Headers::is_chunk))]
fn is_chunk(chunk: u32) -> bool
    ensures listed { result ≡ is_chunk chunk }
    ensures some { IsTrue result → 1 ≤ chunk }
{
    CHUNK_SIZES.contains(&chunk)
}

#[tactic(auto, unfolding(crate::specs::Headers::is_size))]
fn is_size(header: &Header) -> bool
    requires { 1 ≤ header.now.block }
    ensures kept { result ≡ is_size header.now }
    ensures most { IsTrue result → header.now.size ≤ 67108864 }
{
    let block = u64::from(header.block);
    let most = if header.version == 1 {
        MOST_SECTORS_OF_VERSION_1
    } else {
        MOST_SECTORS
    };
    header.size % block == 0 && block <= header.size && header.size <= most
}

#[tactic(auto, unfolding(crate::specs::Headers::is_storage))]
fn is_storage(header: &Header) -> bool
    requires block { 1 ≤ header.now.block }
    requires chunk { 1 ≤ header.now.chunk }
    requires size { header.now.size ≤ 67108864 }
    ensures { result ≡ is_storage header.now }
{
    1 <= header.storage && u64::from(header.storage) <= chunks_in(header)
}

#[tactic(auto, unfolding(crate::specs::Headers::is_slots))]
fn is_slots(slots: u32) -> bool
    ensures { result ≡ is_slots slots }
{
    1 <= slots && slots <= MOST_SLOTS
}

#[tactic(auto, unfolding(crate::specs::Headers::is_tracked))]
fn is_tracked(header: &Header) -> bool
    ensures { result ≡ is_tracked header.now }
{
    header.tracked <= header.size
}

#[tactic(auto, unfolding(crate::specs::Headers::is_generation))]
fn is_generation(generation: u64) -> bool
    ensures { result ≡ is_generation generation }
{
    1 <= generation && generation <= LAST_GENERATION
}

/// The number of the first field, before the zero bytes, that breaks its rule.
#[tactic(auto, unfolding(crate::specs::Headers::judged_fields))]
pub fn wrong_field(header: &Header) -> Option<u8>
    ensures { result ≡ first_wrong (judged_fields header.now true) }
{
    if !is_block(header.block) {
        return Some(1);
    }
    if !is_chunk(header.chunk) {
        return Some(2);
    }
    if !is_size(header) {
        return Some(3);
    }
    if !is_storage(header) {
        return Some(4);
    }
    if !is_slots(header.slots) {
        return Some(5);
    }
    if !is_tracked(header) {
        return Some(6);
    }
    if !is_generation(header.generation) {
        return Some(7);
    }
    None
}

/// Whether the version is known and each field keeps its rule. Only a valid header is written or laid out.
pub fn valid(header: &Header) -> bool
    ensures { IsTrue result ↔ IsValid header.now }
{
    is_version(header.version) && wrong_field(header).is_none()
}
