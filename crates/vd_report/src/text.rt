//! A short text that is put together on the stack, to be written at once.

ghost use Rattle.std.specs.Prelude.{◌≡◌, ◌+◌, ◌*◌, ◌≤◌, ◌++◌, length, codes, decimal, OnErr};
ghost use Rattle.vd_io.specs.Streams.{WritesText};
ghost use Rattle.vd_report.specs.Lines.{phrase};
ghost use Rattle.vd_law.specs.Counts.{Rose};

use arrayvec::ArrayVec;
use itoa::Buffer;
use vd_io::Failed;
use vd_io::sink::Sink;

/// Room for the longest short line, which has four numbers of at most 20 digits.
pub const ROOM: usize = 128;

/// A text of at most `ROOM` bytes.
pub type Text = ArrayVec<u8, ROOM>;

/// Appends a word.
pub fn push_word(text: &mut Text, word: &[u8])
    requires { length text.old.items + length word.now ≤ 128 }
    ensures items { text.new.items ≡ text.old.items ++ word.now }
    ensures longer { length text.new.items ≡ length text.old.items + length word.now }
{
    let _ = text.try_extend_from_slice(word);
}

/// Appends a number in decimal.
pub fn push_number(text: &mut Text, number: u64)
    requires { length text.old.items + 20 ≤ 128 }
    ensures items { text.new.items ≡ text.old.items ++ decimal number }
    ensures longer { length text.new.items ≤ length text.old.items + 20 }
{
    push_word(text, Buffer::new().format(number).as_bytes());
}

/// Appends words, and numbers behind them, each behind a blank.
pub fn push_phrase(text: &mut Text, words: &[u8], numbers: &[u64])
    requires { length text.old.items + length words.now + 21 * length numbers.now ≤ 128 }
    ensures items { text.new.items ≡ text.old.items ++ phrase words.now numbers.now }
    ensures longer { length text.new.items ≤ length text.old.items + length words.now + 21 * length numbers.now }
{
    push_word(text, words);
    for number in numbers {
        push_word(text, b" ");
        push_number(text, *number);
    }
}

/// Writes words, and numbers behind them, each behind a blank, in one write.
pub fn put_phrase<O: Sink>(out: &mut O, words: &[u8], numbers: &[u64]) -> Result<(), Failed>
    requires { length words.now + 21 * length numbers.now ≤ 128 }
    ensures told_before { O.tells out.new → O.tells out.old }
    ensures writes { O.tells out.new → WritesText (phrase words.now numbers.now) result (O.written out.old) (O.written out.new) }
    ensures no_fewer_faults { O.faults out.old ≤ O.faults out.new }
    ensures cause { OnErr result (Rose (O.faults out.old) (O.faults out.new)) }
{
    let mut text = Text::new();
    push_phrase(&mut text, words, numbers);
    out.write(text.as_slice())
}
