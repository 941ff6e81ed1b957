//! The command `make`.

ghost use Rattle.std.specs.Prelude.{◌≡◌, ◌≤◌, ◌<◌, [], length, OnOk, IfErr};
ghost use Rattle.vd_format.specs.Headers.{IsValid};
ghost use Rattle.vd_format.specs.Layouts.{storage_start, store_need};
ghost use Rattle.vd_device.specs.Stores.{KeepsStore};
ghost use Rattle.vd_device.specs.Quiet.{IsReady, OnlyReads, IsCallFault};
ghost use Rattle.vd_image.specs.Made.{header_sector};
ghost use Rattle.vd_report.specs.Outcomes.{Outcome};
ghost use Rattle.vd_report.specs.Ending.{PrintsOutcome};
ghost use Rattle.vd_make.specs.Putting.{AreAll, Story, IsImageWritten};
ghost use Rattle.vd_make.specs.Images.{Makes};
ghost use Rattle.vd_make.specs.Making.{MakingEnds};
ghost use Rattle.vd_format.specs.Background.{zero_sector};

use crate::filling::fill;
use std::alloc::Global;
use vd_device::{Store, sectors_at_rest};
use vd_format::{Header, layout_of, write_header};
use vd_io::sink::Sink;
use vd_law::entry::Sector;
use vd_report::line::Line;
use vd_report::printing::say;
use vd_report::room::MOST;

/// The number of sectors of a store with nothing in flight, which is ready to be written.
fn sectors_to_write<S: Store>(store: &S) -> u64
    requires idle { S.flight store.now [] }
    ensures value { result ≡ S.sectors store.now }
    ensures ready { IsReady S.Store store.now }
    ensures held { S.tells store.now → length (S.disk store.now).held ≡ result }
    ensures start { S.records store.now → length (S.disk store.now).start ≡ result }
{
    let _sectors = store.sectors();
    sectors_at_rest(store)
}

/// Writes the image. Its first sector is zeros until all else is durable, so that a crash leaves no image or the whole one.
fn write_image<S: Store>(store: &mut S, zeros: &[Sector], header: &Header) -> Result<(), u64>
    requires ready { IsReady S.Store store.old }
    requires zeros { AreAll zero_sector zeros.now × (length zeros.now ≡ MOST) }
    requires valid { IsValid header.now }
    requires large { store_need header.now ≤ S.sectors store.old }
    ensures fault { IfErr result (IsCallFault S.Store store.old store.new) }
    ensures idle { S.flight store.new [] }
    ensures keeps { KeepsStore S.Store store.old store.new }
    ensures story { S.tells store.new → Story (header_sector header.now) zero_sector (storage_start header.now) (S.disk store.old) (S.disk store.new) }
    ensures written { OnOk result (S.tells store.new → IsImageWritten (header_sector header.now) zero_sector (storage_start header.now) (S.disk store.new)) }
{
    // Durable before an area changes, so that no crash leaves an old header over areas that are new in part.
    fill(store, zeros, 0, 1)?;
    // Durable before the header is written, so that a header that a crash leaves stands over a whole map and whole slots.
    fill(store, zeros, 1, layout_of(header).storage_at)?;
    // Durable last: from its flush on each crash leaves the image.
    fill(store, &[write_header(header)], 0, 1)
}

/// Makes the image with this header, prints its size or why it is not made, and answers the status.
pub fn make<S: Store, O: Sink>(alloc: Global, out: &mut O, store: &mut S, header: &Header) -> u8
    requires store_idle { S.flight store.old [] }
    requires valid { IsValid header.now }
    requires version { header.now.version ≡ 2 }
    ensures idle { S.flight store.new [] }
    ensures keeps { KeepsStore S.Store store.old store.new }
    ensures unwritten { S.sectors store.old < store_need header.now → OnlyReads S.Store store.old store.new }
    ensures makes { Makes S.Store header.now result store.old store.new }
    ensures answer { (outcome : Outcome) × MakingEnds S.Store header.now store.old store.new outcome × PrintsOutcome O.Sink outcome result out.old out.new }
{
    let need = layout_of(header).need;
    let have = sectors_to_write(store);
    if have < need {
        return say(out, Line::TooSmall { need, have });
    }
    let Ok(zeros) = vec![in alloc; Sector::filled(0); MOST as usize] else {
        return say(out, Line::NoMemory);
    };
    match write_image(store, zeros.as_slice(), header) {
        Ok(()) => say(out, Line::Made { need }),
        Err(ticket) => say(out, Line::StoreFault { ticket }),
    }
}
