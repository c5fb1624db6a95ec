ghost use Rattle.std.specs.Prelude.{◌≡◌, ◌+◌, ◌-◌, ◌<◌, ◌≤◌, ◌^◌, ◌++◌, ◌==◌, pos, true, false, Some, length, drop, slice_index, decimal, IfSome};
ghost use Rattle.std.specs.Char.{is_ascii_digit};
ghost use Rattle.toml_parser.specs.Lexical.{is_word as is_word_byte};
ghost use Rattle.toml_parser.specs.Numbers.{unquoted};
ghost use Rattle.toml_parser.specs.declared.scalar.Scalar.TheVariants.{Integer};

use toml_parser::bytes::is_word;
use toml_parser::text::{first, skip};

/// So many digits fit 63 bits.
const MOST_DIGITS: usize = 18;

/// The plain digits at the front as a number above 0, and the text behind them. None also where
/// the number may go on: behind a space too, since digits behind one space are of the same word.
pub(crate) fn whole_number(text: &str) -> Option<(u64, &str)>
    ensures number { IfSome result (λ p. unquoted text.now ≡ Some (Integer (pos p.0), p.1.now)) }
    ensures small { IfSome result (λ p. p.0 < 10 ^ 18) }
    ensures word { IfSome result (λ _. is_word_byte (slice_index text.now 0) ≡ true) }
    ensures shorter { IfSome result (λ p. length p.1.now < length text.now) }
{
    let byte = first(text);
    if byte < b'1' || byte > b'9' {
        return None;
    }
    let (number, len) = leading_digits(text.as_bytes());
    let rest = skip(text, len);
    if goes_on(first(rest)) {
        return None;
    }
    Some((number, rest))
}

/// Whether a number may go on with this byte, or behind it. Mostly its line ends there.
#[inline]
fn goes_on(byte: u8) -> bool
    ensures word { result ≡ false → is_word_byte byte ≡ false }
    ensures space { result ≡ false → (byte == 32) ≡ false }
{
    byte != b'\n' && (is_word(byte) || byte == b' ')
}

/// The number that the digits at the front write, up to so many of them, and how many they are.
fn leading_digits(bytes: &[u8]) -> (u64, usize)
    requires least { 49 ≤ slice_index bytes.now 0 }
    requires most { slice_index bytes.now 0 ≤ 57 }
    ensures number { bytes.now ≡ decimal result.0 ++ drop result.1 bytes.now }
    ensures small { result.0 < 10 ^ 18 }
    ensures some { 0 < result.1 }
    ensures last { is_ascii_digit (slice_index bytes.now (result.1 - 1)) ≡ true }
{
    let end = bytes.len().min(MOST_DIGITS);
    let mut number = u64::from(bytes[0] - b'0');
    let mut len = 1;
    while len < end && bytes[len].is_ascii_digit() {
        number = 10 * number + u64::from(bytes[len] - b'0');
        len += 1;
    }
    (number, len)
}
