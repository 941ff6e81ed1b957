//! A pass enters the block of its next piece.

ghost use Rattle.std.specs.Prelude.{ℕ, Bool, List, ◌≡◌, ◌+◌, ◌-◌, ◌*◌, ◌/◌, ◌^◌, ◌<◌, ◌≤◌, IfErr, OnOk, length, None, Some, slice_get};
ghost use Rattle.vd_passes.specs.Places.{place_of};
ghost use Rattle.vd_law.specs.Entries.{Entry};
ghost use Rattle.vd_passes.specs.Requests.{requests};
ghost use Rattle.vd_passes.specs.Steps.{IsAt, IsPieceToEnter};
ghost use Rattle.vd_machine.specs.Entering.{CanEnter, EntersBlock, IsKeptOut};

use vd_format::place_of_block;
use vd_passes::pass::Pass;
use vd_passes::shape::Shape;
use vd_regions::regions::{Busy, Mode, Regions};
use vd_table::table::Table;

/// The block of the next piece of a pass, and the piece's sectors.
fn next_piece(shape: &Shape, p: &Pass) -> (u64, u64)
    requires some { 0 < shape.now.block }
    requires small { shape.now.block ≤ 128 }
    requires left { p.now.done < p.now.count }
    requires fits { p.now.first + p.now.count ≤ 2 ^ 26 }
    ensures { IsPieceToEnter shape.now p.now result.0 result.1 }
{
    let at = p.first + p.done;
    let block = at / shape.block;
    let end = (p.first + p.count).min(shape.block * block + shape.block);
    (block, end - at)
}

/// The first sector of a block in the store, or 0 where it has no place.
fn place(shape: &Shape, table: &Table, block: u64) -> u64
    requires some { 0 < shape.now.block }
    requires chunk { 0 < shape.now.chunk }
    requires inside { block / shape.now.chunk < length table.now.chunks }
    requires few { length table.now.chunks < 2 ^ 32 }
    requires places { (x : ℕ) → place_of shape.now table.now.chunks block ≡ Some x → x < 2 ^ 64 }
    ensures { (x : ℕ) → place_of shape.now table.now.chunks block ≡ Some x → result ≡ x }
{
    match table.get((block / shape.chunk) as u32) {
        Some(p) => place_of_block(shape.storage_at, shape.chunk, shape.block, p, block),
        None => 0,
    }
}

/// Gives a pass the region of its next piece's block, to itself for a write. The error is the lowest pass that keeps it out.
pub fn enter_block(
    shape: &Shape,
    table: &Table,
    regions: &mut Regions,
    passes: &mut Vec<Pass>,
    pass: usize,
) -> Result<(), Busy>
    requires can { IsAt passes.old.items pass (CanEnter shape.now table.now.chunks) }
    requires few { length passes.old.items ≤ 64 }
    requires nothing { slice_get regions.old pass ≡ Some None }
    ensures busy { IfErr result (λ busy. (fresh : List Bool) (entries : List Entry) → IsKeptOut regions.old regions.new pass busy.by
        (requests shape.now fresh passes.old.items entries) (requests shape.now fresh passes.new.items entries)) }
    ensures enters { OnOk result ((fresh : List Bool) (entries : List Entry) → EntersBlock table.now.chunks regions.old regions.new pass
        (requests shape.now fresh passes.old.items entries) (requests shape.now fresh passes.new.items entries)) }
{
    let p = &passes[pass];
    let (block, piece) = next_piece(shape, p);
    let mode = if p.write { Mode::Own } else { Mode::Shared };
    regions.ask(pass as u32, block, block, mode)?;
    let at = place(shape, table, block);
    passes[pass].enter(block, piece, at);
    Ok(())
}
