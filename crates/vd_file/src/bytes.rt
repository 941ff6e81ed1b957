//! The bytes of sectors, where they lie.

ghost use Rattle.std.specs.Prelude.{◌≡◌, map};

use std::slice::from_raw_parts;
use vd_law::entry::Sector;

/// The bytes of the sectors, lent and not copied. A sector is its 512 bytes and nothing else.
pub fn arrays_of(sectors: &[Sector]) -> &[[u8; 512]]
    ensures { result.now ≡ map (λ sector. sector.bytes) sectors.now }
{
    let len = sectors.len();
    unsafe { from_raw_parts(sectors.as_ptr() as *const [u8; 512], len) }
}
