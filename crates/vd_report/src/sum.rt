//! The line that counts a run's replies.

ghost use Rattle.std.specs.Prelude.{◌≡◌, ◌≤◌, OnErr};
ghost use Rattle.vd_law.specs.Entries.{entry_of};
ghost use Rattle.vd_io.specs.Streams.{WritesText};
ghost use Rattle.vd_report.specs.Replies.{is_reply, sum_text};
ghost use Rattle.vd_report.specs.Sums.{SumsReplies, CanRise, CountsMore};
ghost use Rattle.vd_law.specs.Counts.{Rose};

use crate::text::{Text, push_phrase, push_word};
use vd_io::Failed;
use vd_io::sink::Sink;
use vd_law::entry::{Answer, Event};
use vd_log::history::History;
use vd_log::log::Log;

/// How many replies of each kind there were.
#[derive(Clone, Copy, Drop)]
pub(crate) struct Sum {
    ok: u64,
    full: u64,
    fault: u64,
    worn: u64,
}

/// One more answer.
fn with_answer(sum: Sum, answer: Answer) -> Sum
    requires { CanRise sum }
    ensures { CountsMore sum result (λ is_kind. is_kind answer) }
{
    match answer {
        Answer::Ok => Sum {
            ok: sum.ok + 1,
            ..sum
        },
        Answer::Full { needed: _, free: _ } => Sum {
            full: sum.full + 1,
            ..sum
        },
        Answer::StoreFault { ticket: _, done: _ } => Sum {
            fault: sum.fault + 1,
            ..sum
        },
        Answer::BaseFault { ticket: _, done: _ } => Sum {
            fault: sum.fault + 1,
            ..sum
        },
        Answer::NoRoom {
            events: _,
            sectors: _,
        } => sum,
        Answer::Worn { generation: _ } => Sum {
            worn: sum.worn + 1,
            ..sum
        },
    }
}

/// One more entry, which counts where it is a reply to a guest.
fn with_entry(sum: Sum, event: Event<'_>, guests: u32) -> Sum
    requires { CanRise sum }
    ensures { CountsMore sum result (λ is_kind. is_reply is_kind guests (entry_of event.entry)) }
{
    match event {
        Event::Reply { id, answer } if 1 <= id.pass && id.pass <= guests => with_answer(
            sum, answer,
        ),
        _ => sum,
    }
}

fn sum_of(log: &Log, guests: u32) -> Sum
    ensures { SumsReplies guests log.now.entries result }
{
    let mut sum = Sum {
        ok: 0,
        full: 0,
        fault: 0,
        worn: 0,
    };
    for at in 0..log.len() {
        sum = with_entry(sum, log.event(at), guests);
    }
    sum
}

/// Writes, in one write, how many replies of guests 1 to `guests` there were: `sum ok A full B fault C worn D`, where C
/// counts the faults of both devices. After Failed a front of it is written.
pub fn put_sum<O: Sink>(out: &mut O, history: &History, guests: u32) -> Result<(), Failed>
    ensures told_before { O.tells out.new → O.tells out.old }
    ensures writes { O.tells out.new → WritesText (sum_text guests history.now.log.entries) result (O.written out.old) (O.written out.new) }
    ensures no_fewer_faults { O.faults out.old ≤ O.faults out.new }
    ensures cause { OnErr result (Rose (O.faults out.old) (O.faults out.new)) }
{
    let sum = sum_of(history.log(), guests);
    let mut text = Text::new();
    push_phrase(&mut text, b"sum ok", &[sum.ok]);
    push_phrase(&mut text, b" full", &[sum.full]);
    push_phrase(&mut text, b" fault", &[sum.fault]);
    push_phrase(&mut text, b" worn", &[sum.worn]);
    push_word(&mut text, b"\n");
    out.write(text.as_slice())
}
