//! Sectors as tokens.

ghost use Rattle.std.specs.Prelude.{◌≡◌, ◌≤◌, ◌++◌, length, take, codes, OnErr};
ghost use Rattle.hex.specs.Hex.{encode_lower};
ghost use Rattle.vd_io.specs.Streams.{WritesText};
ghost use Rattle.vd_report.specs.Tokens.{token, tokens, show_text};
ghost use Rattle.vd_law.specs.Counts.{Rose};

use crate::text::put_phrase;
use vd_io::Failed;
use vd_io::sink::Sink;
use vd_law::entry::Sector;

/// A blank, and the token of a sector whose bytes are all the first one.
fn short_token(sector: &Sector) -> [u8; 4]
    ensures text { result ≡ codes " *" ++ encode_lower (take 1 sector.now.bytes) }
    ensures size { length result ≡ 4 }
{
    let mut token = [b' ', b'*', 0, 0];
    let _ = hex::encode_to_slice(&sector.bytes[..1], &mut token[2..]);
    token
}

/// A blank, and the token of a sector whose bytes are not all the same.
fn long_token(sector: &Sector) -> [u8; 1025]
    ensures text { result ≡ codes " " ++ encode_lower sector.now.bytes }
    ensures size { length result ≡ 1025 }
{
    let mut token = [b' '; 1025];
    let _ = hex::encode_to_slice(sector.bytes.as_slice(), &mut token[1..]);
    token
}

/// Writes a sector's token in one write: `*` and two lower case digits where its bytes are all the same, else 1,024 lower
/// case digits. After Failed a front of it is written.
pub fn put_sector<O: Sink>(out: &mut O, sector: &Sector) -> Result<(), Failed>
    ensures told_before { O.tells out.new → O.tells out.old }
    ensures writes { O.tells out.new → WritesText (token sector.now.bytes) result (O.written out.old) (O.written out.new) }
    ensures no_fewer_faults { O.faults out.old ≤ O.faults out.new }
    ensures cause { OnErr result (Rose (O.faults out.old) (O.faults out.new)) }
{
    match sector.same() {
        Some(_) => out.write(&short_token(sector)[1..]),
        None => out.write(&long_token(sector)[1..]),
    }
}

/// Writes a blank and a sector's token in one write.
fn put_token<O: Sink>(out: &mut O, sector: &Sector) -> Result<(), Failed>
    ensures told_before { O.tells out.new → O.tells out.old }
    ensures writes { O.tells out.new → WritesText (codes " " ++ token sector.now.bytes) result (O.written out.old) (O.written out.new) }
    ensures no_fewer_faults { O.faults out.old ≤ O.faults out.new }
    ensures cause { OnErr result (Rose (O.faults out.old) (O.faults out.new)) }
{
    match sector.same() {
        Some(_) => out.write(&short_token(sector)),
        None => out.write(&long_token(sector)),
    }
}

/// Writes the tokens of sectors, each behind a blank and in one write. After Failed a front of them is written.
pub fn put_tokens<O: Sink>(out: &mut O, sectors: &[Sector]) -> Result<(), Failed>
    ensures told_before { O.tells out.new → O.tells out.old }
    ensures writes { O.tells out.new → WritesText (tokens sectors.now) result (O.written out.old) (O.written out.new) }
    ensures no_fewer_faults { O.faults out.old ≤ O.faults out.new }
    ensures cause { OnErr result (Rose (O.faults out.old) (O.faults out.new)) }
{
    for sector in sectors {
        put_token(out, sector)?;
    }
    Ok(())
}

/// Writes the line that shows sectors from `first` on: `show FIRST` and a token for each. After Failed a front of it is
/// written.
pub fn put_show<O: Sink>(out: &mut O, first: u64, sectors: &[Sector]) -> Result<(), Failed>
    ensures told_before { O.tells out.new → O.tells out.old }
    ensures writes { O.tells out.new → WritesText (show_text first sectors.now) result (O.written out.old) (O.written out.new) }
    ensures no_fewer_faults { O.faults out.old ≤ O.faults out.new }
    ensures cause { OnErr result (Rose (O.faults out.old) (O.faults out.new)) }
{
    put_phrase(out, b"show", &[first])?;
    put_tokens(out, sectors)?;
    out.write(b"\n")
}
