//! A line of a trace that is put together on the stack, to be written at once.

ghost use Rattle.std.specs.Prelude.{◌≡◌, ◌+◌, ◌*◌, ◌≤◌, ◌++◌, length, decimal};
ghost use Rattle.hex.specs.Hex.{encode_lower};

use arrayvec::ArrayVec;
use itoa::Buffer;

/// Room for the longest line, which writes a sector.
const ROOM: usize = 1100;

/// The most digits of bytes that are pushed at once.
const MOST_DIGITS: usize = 1024;

/// A text of at most `ROOM` bytes.
pub type Text = ArrayVec<u8, ROOM>;

/// Appends a word.
pub fn push_word(text: &mut Text, word: &[u8])
    requires { length text.old.items + length word.now ≤ 1100 }
    ensures items { text.new.items ≡ text.old.items ++ word.now }
    ensures longer { length text.new.items ≡ length text.old.items + length word.now }
{
    let _ = text.try_extend_from_slice(word);
}

/// Appends a number in decimal.
pub fn push_number(text: &mut Text, number: u64)
    requires { length text.old.items + 20 ≤ 1100 }
    ensures items { text.new.items ≡ text.old.items ++ decimal number }
    ensures longer { length text.new.items ≤ length text.old.items + 20 }
{
    push_word(text, Buffer::new().format(number).as_bytes());
}

/// Appends the bytes, as two lower case digits each.
pub fn push_hex(text: &mut Text, bytes: &[u8])
    requires few { length bytes.now ≤ 512 }
    requires room { length text.old.items + 2 * length bytes.now ≤ 1100 }
    ensures items { text.new.items ≡ text.old.items ++ encode_lower bytes.now }
    ensures longer { length text.new.items ≡ length text.old.items + 2 * length bytes.now }
{
    let mut room = [0; MOST_DIGITS];
    let digits = &mut room[..2 * bytes.len()];
    let _ = hex::encode_to_slice(bytes, digits);
    push_word(text, digits);
}
