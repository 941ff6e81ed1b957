//! The requests of one guest, and the flush that closes the image, over devices that settle by waiting.

ghost use Rattle.std.specs.Prelude.{◌≡◌, ℕ, ◌*◌, ◌<◌, ◌≤◌, ◌+◌, length};
ghost use Rattle.std.specs.List.{All};
ghost use Rattle.vd_trace.specs.Traces.{script, works_asked};
ghost use Rattle.vd_trace.specs.Scripts.{request_of, HasRange};
ghost use Rattle.vd_law.specs.Entries.{Read, Write, Flush};
ghost use Rattle.vd_law.specs.declared.entry.Answer.TheVariants.{Ok as Fine};
ghost use Rattle.vd_device.specs.Stores.{KeepsStore};
ghost use Rattle.vd_device.specs.Bases.{KeepsBase};
ghost use Rattle.vd_run.specs.Serving.{IsServable, IsResting, IsUnused, IsServed, AddsAnsweredFlush, AreInEveryImage, Closes};
ghost use Rattle.vd_run.specs.Driving.{CanServe, Serves, AreLogged, IsSameDisk, with_flush};
ghost use Rattle.vd_device.specs.Patients.{patient_store, patient_base};
ghost use Rattle.vd_machine.specs.Asking.{Suffices};
ghost use Rattle.vd_law.specs.Needs.{request_room, requests_room};

use vd_core::{Core, Step};
use vd_device::{Base, Patient, Store};
use vd_drive::{Flusher, Reader, Writer};
use vd_law::entry::{Answer, Request, Sector};
use vd_trace::trace::{Asked, Trace};

/// Serves a write of this content by pass 1: it is asked, and driven to its reply.
fn serve_write<S: Store, B: Base>(
    core: &mut Core<Patient<S>, Patient<B>>,
    first: u64,
    content: &[Sector],
)
    requires can { CanServe (Write first content.now) core.old.shape core.old.passes core.old.flusher core.old.spare }
    ensures resting { IsResting core.new.passes core.new.flusher }
    ensures serves { Serves (Write first content.now) core.old.shape.block
        core.old.history.log.entries core.new.history.log.entries core.old.spare core.new.spare }
    ensures disk { IsSameDisk core.old core.new }
    ensures keeps { KeepsStore (patient_store S.Store) core.old.store core.new.store }
    ensures base_keeps { KeepsBase (patient_base B.Base) core.old.base core.new.base }
{
    if core.ask(1, Request::Write { first, content }).is_some() {
        return;
    }
    // Late and Busy can't come: the devices wait, and the other pass has no region.
    while let Step::Again = Writer::next(core, 1, content) {}
}

/// Serves a read of as many sectors as `out` has.
fn serve_read<S: Store, B: Base>(
    core: &mut Core<Patient<S>, Patient<B>>,
    first: u64,
    out: &mut [Sector],
)
    requires can { CanServe (Read first (length out.old)) core.old.shape core.old.passes core.old.flusher core.old.spare }
    ensures resting { IsResting core.new.passes core.new.flusher }
    ensures serves { Serves (Read first (length out.old)) core.old.shape.block
        core.old.history.log.entries core.new.history.log.entries core.old.spare core.new.spare }
    ensures disk { IsSameDisk core.old core.new }
    ensures keeps { KeepsStore (patient_store S.Store) core.old.store core.new.store }
    ensures base_keeps { KeepsBase (patient_base B.Base) core.old.base core.new.base }
{
    let count = out.len() as u64;
    if core.ask(1, Request::Read { first, count }).is_some() {
        return;
    }
    // Late and Busy can't come, as for a write.
    while let Step::Again = Reader::next(core, 1, out) {}
}

/// Flushes by one of the two passes, and gives what it is answered.
fn flush<S: Store, B: Base>(core: &mut Core<Patient<S>, Patient<B>>, pass: u32) -> Answer
    requires pass { pass < 2 }
    requires can { CanServe Flush core.old.shape core.old.passes core.old.flusher core.old.spare }
    ensures resting { IsResting core.new.passes core.new.flusher }
    ensures flushes { AddsAnsweredFlush pass result core.old.history.log.entries core.new.history.log.entries }
    ensures logged { result ≡ Fine → AreLogged core.old.keeping core.new.keeping }
    ensures fresh { core.new.fresh ≡ core.old.fresh }
    ensures room { (core.old.spare.events ≤ core.new.spare.events + 2) × (core.old.spare.sectors ≤ core.new.spare.sectors) }
    ensures disk { IsSameDisk core.old core.new }
    ensures keeps { KeepsStore (patient_store S.Store) core.old.store core.new.store }
    ensures base_keeps { KeepsBase (patient_base B.Base) core.old.base core.new.base }
{
    if let Some(_) = core.ask(pass, Request::Flush) {
        unreachable!();
    }
    loop {
        match Flusher::next(core, pass) {
            Step::Again => {}
            Step::Ended(answer) => return answer,
            // The devices wait, and the other pass doesn't flush.
            Step::Late | Step::Busy { .. } => unreachable!(),
        }
    }
}

/// Serves a request: a write of what stands at the front of `sectors`, or a read into their front.
fn serve_one<S: Store, B: Base>(
    core: &mut Core<Patient<S>, Patient<B>>,
    asked: Asked,
    sectors: &mut [Sector],
)
    requires range { HasRange asked }
    requires servable { IsServable (core.old.shape.block * core.old.shape.blocks) (request_of asked sectors.old) }
    requires resting { IsResting core.old.passes core.old.flusher }
    requires room { Suffices (request_room core.old.shape.block (request_of asked sectors.old)) core.old.spare }
    requires sectors { length sectors.old ≡ 2048 }
    ensures resting { IsResting core.new.passes core.new.flusher }
    ensures serves { Serves (request_of asked sectors.old) core.old.shape.block
        core.old.history.log.entries core.new.history.log.entries core.old.spare core.new.spare }
    ensures disk { IsSameDisk core.old core.new }
    ensures keeps { KeepsStore (patient_store S.Store) core.old.store core.new.store }
    ensures base_keeps { KeepsBase (patient_base B.Base) core.old.base core.new.base }
{
    match asked {
        Asked::Read { first, count } => serve_read(core, first, &mut sectors[..count as usize]),
        Asked::Write { first, count } => serve_write(core, first, &sectors[..count as usize]),
        Asked::Flush => {
            flush(core, 1);
        }
    }
}

/// Serves the requests of a trace's one guest in order, each to its reply, by pass 1 of a core with two passes that have
/// asked nothing. It always returns, and leaves room for one flush more. `sectors` has room for the 2,048 sectors of a request, which
/// writes them or reads them.
pub fn serve<S: Store, B: Base>(
    core: &mut Core<Patient<S>, Patient<B>>,
    trace: &Trace,
    sectors: &mut [Sector],
)
    requires unused { IsUnused core.old.passes core.old.flusher core.old.history.log.entries }
    requires sectors { length sectors.old ≡ 2048 }
    requires servable { All (IsServable (core.old.shape.block * core.old.shape.blocks)) (script trace.now 1) }
    requires room { Suffices (with_flush (requests_room core.old.shape.block (works_asked trace.now.asks))) core.old.spare }
    ensures served { IsServed (script trace.now 1) core.new.passes core.new.history.log.entries }
    ensures resting { IsResting core.new.passes core.new.flusher }
    ensures room { Suffices (request_room core.new.shape.block Flush) core.new.spare }
    ensures disk { IsSameDisk core.old core.new }
    ensures keeps { KeepsStore (patient_store S.Store) core.old.store core.new.store }
    ensures base_keeps { KeepsBase (patient_base B.Base) core.old.base core.new.base }
{
    // For what it says alone: where the store's log is told, the store tells all or has stopped.
    let _ = core.history();
    for at in 0..trace.count(1) {
        let asked = trace.request(1, at, sectors);
        serve_one(core, asked, sectors);
    }
    // All entries are of pass 1, since it has asked all calls of a regular history.
    let _ = core.history();
}

/// Puts every local block that not every image has into the next flush, and flushes by pass 0. What it answers is that flush's. Where
/// that is Ok, no local block is left that not every image has.
pub fn close<S: Store, B: Base>(core: &mut Core<Patient<S>, Patient<B>>) -> Answer
    requires resting { IsResting core.old.passes core.old.flusher }
    requires room { Suffices (request_room core.old.shape.block Flush) core.old.spare }
    ensures resting { IsResting core.new.passes core.new.flusher }
    ensures closed { Closes result core.old.history.log.entries core.new.history.log.entries }
    ensures adopted { result ≡ Fine → AreInEveryImage core.new.fresh core.new.keeping.stale }
    ensures disk { IsSameDisk core.old core.new }
    ensures keeps { KeepsStore (patient_store S.Store) core.old.store core.new.store }
    ensures base_keeps { KeepsBase (patient_base B.Base) core.old.base core.new.base }
{
    core.adopt();
    flush(core, 0)
}
