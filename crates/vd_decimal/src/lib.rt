//! Decimal numbers in texts.
#![tactic(auto)]

ghost use Rattle.std.specs.Prelude.{◌≡◌, ◌↔◌, ℕ, Some, IsTrue};
ghost use Rattle.vd_decimal.specs.Numbers.{SpellsNumber, number_in, AreDigits, ArePlain};

fn are_digits(bytes: &[u8]) -> bool
    ensures { IsTrue result ↔ AreDigits bytes.now }
{
    bytes.iter().all(|byte| byte.is_ascii_digit())
}

fn are_plain(bytes: &[u8], most: usize) -> bool
    ensures { IsTrue result ↔ ArePlain most bytes.now }
{
    let has_leading_zero = bytes.len() > 1 && bytes[0] == b'0';
    bytes.len() <= most && !has_leading_zero && are_digits(bytes)
}

/// The number that the digits spell: with no sign, no leading zero but for `0` itself, and at most `most` digits.
/// None exactly where they spell none below 2^64.
pub fn read_number(digits: &[u8], most: usize) -> Option<u64>
    ensures exact { (n : ℕ) → (result ≡ Some n) ↔ SpellsNumber most digits.now n }
    ensures value { result ≡ number_in most digits.now }
{
    if !are_plain(digits, most) {
        return None;
    }
    match str::from_utf8(digits) {
        Ok(text) => text.parse().ok(),
        Err(_) => None,
    }
}

#[cfg(test)]
mod tests {
    use super::*;

    #[test]
    fn decimal_numbers_alone_are_read(rt: HostRuntime) {
        let rows: [(&[u8], usize, Option<u64>); 16] = [
            (b"0", 10, Some(0)),
            (b"7", 10, Some(7)),
            (b"10", 10, Some(10)),
            (b"00", 10, None),
            (b"01", 10, None),
            (b"", 10, None),
            (b"+1", 10, None),
            (b"-1", 10, None),
            (b" 1", 10, None),
            (b"1a", 10, None),
            (b"9999999999", 10, Some(9_999_999_999)),
            (b"10000000000", 10, None),
            (b"10000000000", 20, Some(10_000_000_000)),
            (
                b"18446744073709551615",
                20,
                Some(18_446_744_073_709_551_615),
            ),
            (b"18446744073709551616", 20, None),
            (b"100000000000000000000", 20, None),
        ];
        for (digits, most, number) in rows {
            assert_eq!(rt; read_number(digits, most), number, "{digits:?}");
        }
    }
}
