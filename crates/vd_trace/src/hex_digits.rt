//! Hexadecimal digits, read.

ghost use Rattle.std.specs.Prelude.{◌≡◌, ◌*◌, length, unwrap_or, IsErr};
ghost use Rattle.std.specs.Bool.{OnTrue, OnFalse};
ghost use Rattle.std.specs.Result.{result_ok};
ghost use Rattle.hex.specs.Hex.{decode_of, decode_sized, hex_digit_value};

/// Stands for the value of a byte that is no digit.
const NO_DIGIT: u8 = 255;

/// The value of a digit of either case. Arithmetic in place of a table, so that the compiler takes many digits at once.
fn value(digit: u8) -> u8
    ensures { result ≡ unwrap_or (hex_digit_value digit) 255 }
{
    let number = digit.wrapping_sub(b'0');
    let letter = (digit | 0x20).wrapping_sub(b'a');
    if number < 10 {
        number
    } else if letter < 6 {
        letter + 10
    } else {
        NO_DIGIT
    }
}

/// Reads the bytes that the digits spell, two for each byte. Answers whether all are digits.
fn read(digits: &[u8], bytes: &mut [u8]) -> bool
    requires { length digits.now ≡ 2 * length bytes.old }
    ensures spelled { OnTrue result (decode_of digits.now ≡ Ok bytes.new) }
    ensures refused { OnFalse result (IsErr (decode_of digits.now)) }
{
    let (pairs, _) = digits.as_chunks::<2>();
    let mut all = 0;
    'pairs: for i in 0..pairs.len() {
        // One load for both digits, so that the loads of many pairs lie side by side.
        let pair = u16::from_le_bytes(pairs[i]);
        let high = value((pair & 0xff) as u8);
        let low = value((pair >> 8) as u8);
        all |= high | low;
        bytes[i] = high << 4 | low;
    }
    // Bits above the lowest four come from NO_DIGIT alone.
    all < 16
}

/// So many bytes, two digits of either case for each. None where there are more digits, fewer, or other bytes.
pub fn bytes_in<const N: usize>(digits: &[u8]) -> Option<[u8; N]>
    ensures { result ≡ result_ok (decode_sized digits.now N) }
{
    if digits.len() % 2 != 0 || digits.len() / 2 != N {
        return None;
    }
    let mut bytes = [0; N];
    if read(digits, &mut bytes) {
        Some(bytes)
    } else {
        None
    }
}
