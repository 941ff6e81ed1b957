//! The buffer of a pass: room for the sectors of one block.

ghost use Rattle.std.specs.Prelude.{◌≡◌, ◌+◌, ◌-◌, ◌≤◌, IfOk, length, replicate};
ghost use Rattle.vd_device.specs.declared.ticket.Kind.TheVariants.{Read};
ghost use Rattle.vd_device.specs.Tickets.{IsInFlight};
ghost use Rattle.vd_passes.specs.Laying.{content_with_part};
ghost use Rattle.vd_passes.specs.Buffers.{BufferSettled};
ghost use Rattle.vd_format.specs.Background.{zero_sector};

use std::alloc::{AllocError, Global};
use std::marker::Model;
use vd_device::{Base, Settled, Ticket};
use vd_format::zeros::{clear, zero};
use vd_law::entry::Sector;

/// The sectors of a block, which clauses see as a list.
#[derive(Drop)]
pub struct Buffer {
    sectors: Vec<Sector>,
}

impl Model for Buffer {
    ghost use Rattle.std.specs.Prelude.{List};
    ghost use Rattle.vd_law.specs.declared.entry.Sector.{Sector};

    ghost Value = { List Sector };

    ghost view = { λ buffer. buffer.sectors.items };
}

impl Buffer {
    /// So many sectors of zeros.
    pub fn zeros(alloc: Global, sectors: usize) -> Result<Buffer, AllocError>
        ensures { IfOk result (λ buffer. buffer ≡ replicate sectors zero_sector) }
    {
        let sectors = vec![in alloc; zero(); sectors]?;
        Ok(Buffer { sectors })
    }

    pub fn sectors(&self) -> &[Sector]
        ensures { result.now ≡ self.now }
    {
        &self.sectors
    }

    pub fn clear(&mut self)
        ensures { self.new ≡ replicate (length self.old) zero_sector }
    {
        clear(&mut self.sectors);
    }

    /// Puts these sectors in the place of those from `at` on.
    pub fn lay(&mut self, at: usize, part: &[Sector])
        requires { at + length part.now ≤ length self.old }
        ensures { self.new ≡ content_with_part at part.now self.old }
    {
        self.sectors[at..at + part.len()].copy_from_slice(part);
    }

    /// Settles a base read. What was read comes to stand at the front, with zeros behind it.
    pub fn settle<B: Base>(&mut self, base: &mut B, ticket: Ticket) -> Settled
        requires mine { IsInFlight (B.flight base.old) ticket }
        requires kind { ticket.kind ≡ Read }
        requires fits { ticket.count ≤ length self.old }
        ensures { BufferSettled B.Base result ticket self.old self.new base.old base.new }
    {
        let count = ticket.count() as usize;
        let (front, back) = self.sectors.split_at_mut(count);
        let answer = base.settle(ticket, front);
        if let Settled::Done = &answer {
            clear(back);
        }
        answer
    }
}
