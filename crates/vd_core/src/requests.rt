//! A pass asks a request, and has its reply.

ghost use Rattle.std.specs.Prelude.{◌≡◌, ◌*◌};
ghost use Rattle.vd_law.specs.Entries.{asked_of};
ghost use Rattle.vd_law.specs.Rules.{IsInside};
ghost use Rattle.vd_device.specs.Stores.{IsTold};
ghost use Rattle.vd_passes.specs.declared.pass.Phase.TheVariants.{Idle, Ready};
ghost use Rattle.vd_passes.specs.Steps.{IsAt};
ghost use Rattle.vd_machine.specs.Asking.{HasSize};
ghost use Rattle.vd_machine.specs.AskSteps.{AskStep, ReplyStep};

use crate::state::{Core, one_more};
use vd_device::{Base, Store};
use vd_law::entry::{Answer, Request};
use vd_machine::{ask_in_room, reply_in_room};

impl<S: Store, B: Base> Core<S, B> {
    /// Asks a request of an idle pass: a flush, or a read or a write of 1 to 2,048 sectors that lie in the disk. The answer is NoRoom exactly where
    /// the request needs more events or more sectors than the room that is left has, with that room; then nothing changes.
    /// Else it is Full exactly where a write's range has more chunks without storage than storage chunks are free, with these
    /// two numbers; the call has its Ask and its Reply, and the pass is idle. Else each of the chunks has got the least free
    /// storage chunk, in rising order, the room that the request needs is reserved, and the pass has asked.
    pub fn ask(&mut self, pass: u32, request: Request<'_>) -> Option<Answer>
        requires phase { IsAt self.old.passes pass (λ p. p.phase ≡ Idle) }
        requires size { HasSize (asked_of request) }
        requires inside { IsInside (self.old.shape.block * self.old.shape.blocks) (asked_of request) }
        ensures asks { AskStep S.Store result (asked_of request.entry) pass self.old self.new }
        ensures told { IsTold S.Store self.new.store }
    {
        self.steps = one_more(self.steps);
        ask_in_room(
            &self.store,
            &self.shape,
            &mut self.state.table,
            &mut self.passes,
            &mut self.history,
            &mut self.spare,
            pass as usize,
            request,
        )
    }

    /// Gives a pass that is ready its reply: to a read or a write Ok exactly where all its sectors are done, else the fault of the
    /// device that failed it, with the ticket and the number of sectors done. The room that the call reserved and didn't use is left again.
    pub fn reply(&mut self, pass: u32) -> Answer
        requires phase { IsAt self.old.passes pass (λ p. p.phase ≡ Ready) }
        ensures replies { ReplyStep S.Store result pass self.old self.new }
    {
        self.steps = one_more(self.steps);
        reply_in_room(
            &self.store,
            &mut self.passes,
            &mut self.history,
            &mut self.spare,
            pass as usize,
        )
    }
}
