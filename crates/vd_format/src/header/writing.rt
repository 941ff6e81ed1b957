//! Writing a header.

ghost use Rattle.std.specs.Prelude.{◌≡◌, Ok, replicate};
ghost use Rattle.vd_format.specs.Headers.{IsValid, header_of, spelling};

use crate::header::{HEADER_MAGIC, Header};
use crate::numbers::{put, put_u32, put_u64};
use vd_law::entry::Sector;

fn put_fields(bytes: &mut [u8], header: &Header)
    requires { bytes.old ≡ replicate 512 0 }
    ensures { bytes.new ≡ spelling header.now }
{
    put(bytes, 0, &HEADER_MAGIC);
    put_u32(bytes, 8, header.version);
    put_u32(bytes, 12, header.block);
    put_u32(bytes, 16, header.chunk);
    put_u32(bytes, 20, header.storage);
    put_u32(bytes, 24, header.slots);
    put_u64(bytes, 32, header.size);
    put_u64(bytes, 40, header.tracked);
    put_u64(bytes, 48, header.generation);
}

/// The one spelling of a valid header: the sector that `read_header` reads as this header.
pub fn write_header(header: &Header) -> Sector
    requires { IsValid header.now }
    ensures spelled { result.bytes ≡ spelling header.now }
    ensures read { header_of result ≡ Ok header.now }
{
    let mut sector = Sector::filled(0);
    put_fields(&mut sector.bytes, header);
    sector
}
