//! The fields of a line.

ghost use Rattle.std.specs.Prelude.{◌≡◌, ◌<◌, ◌==◌, ◌∷◌, [], length, map, IfSome, IfNone};
ghost use Rattle.std.specs.List.{slice_split};

use arrayvec::ArrayVec;

/// The most fields that a line may have.
const MOST: usize = 5;

/// The fields of a line, in order.
pub type Fields<'a> = ArrayVec<&'a [u8], MOST>;

/// What stands before the first blank, and what stands behind it.
fn cut(text: &[u8]) -> Option<(&[u8], &[u8])>
    ensures blank { IfSome result (λ parts. slice_split (λ b. b == 32) text.now ≡ parts.0.now ∷ slice_split (λ b. b == 32) parts.1.now) }
    ensures whole { IfNone result (slice_split (λ b. b == 32) text.now ≡ text.now ∷ []) }
{
    match memchr::memchr(b' ', text) {
        Some(end) => Some((&text[..end], &text[end + 1..])),
        None => None,
    }
}

/// The fields, which stand between blanks. None where there are more than a line may have.
pub fn fields_of(line: &[u8]) -> Option<Fields<'_>>
    ensures few { IfSome result (λ fields. map (λ f. f.now) fields.items ≡ slice_split (λ b. b == 32) line.now) }
    ensures many { IfNone result (5 < length (slice_split (λ b. b == 32) line.now)) }
{
    let mut fields = Fields::new();
    let mut rest = line;
    for _ in 0..MOST {
        match cut(rest) {
            Some((field, behind)) => {
                fields.push(field);
                rest = behind;
            }
            None => {
                fields.push(rest);
                return Some(fields);
            }
        }
    }
    None
}
