ghost use Rattle.std.specs.Prelude.{◌+◌, ◌<◌, ◌≤◌, [], ◌∷◌, length, decimal, IfSome, IfOk};
ghost use Rattle.cert_reader.specs.Text.{quoted_number};
ghost use Rattle.cert_reader.specs.inner.Text.{Stands};

use crate::not_printed::NotPrinted;
use crate::read_at::ReadAt;
use std::alloc::Global;

/// The greatest number that takes one digit more within 128 bits, whichever digit it is.
const MOST: u128 = (u128::MAX - 9) / 10;

/// So many digits fit 64 bits.
const SHORT: usize = 19;

/// The place behind a word that has to stand at a place.
pub fn behind(bytes: &[u8], at: usize, word: &[u8]) -> Result<usize, NotPrinted>
    ensures { IfOk result (λ to. Stands bytes.now at to word.now) }
{
    behind_word(bytes, at, word).ok_or(NotPrinted::Other)
}

/// The place behind a word that stands at a place.
pub fn behind_word(bytes: &[u8], at: usize, word: &[u8]) -> Option<usize>
    ensures { IfSome result (λ to. Stands bytes.now at to word.now) }
{
    if at > bytes.len() {
        return None;
    }
    let (_, here) = bytes.split_at(at);
    let rest = here.strip_prefix(word)?;
    Some(bytes.len() - rest.len())
}

/// The place behind a byte that stands at a place.
pub fn behind_byte(bytes: &[u8], at: usize, byte: u8) -> Option<usize>
    ensures text { IfSome result (λ to. Stands bytes.now at to (byte ∷ [])) }
    ensures within { IfSome result (λ to. (at < to) × (to ≤ length bytes.now)) }
{
    if at < bytes.len() && bytes[at] == byte {
        Some(at + 1)
    } else {
        None
    }
}

/// The digit that stands at a place.
fn digit_at(bytes: &[u8], at: usize) -> Option<u8>
    ensures text { IfSome result (λ d. Stands bytes.now at (at + 1) ((48 + d) ∷ [])) }
    ensures digit { IfSome result (λ d. d < 10) }
    ensures within { IfSome result (λ d. at < length bytes.now) }
{
    if at < bytes.len() && bytes[at].is_ascii_digit() {
        Some(bytes[at] - b'0')
    } else {
        None
    }
}

/// The number whose decimal text stands at a place, and the place behind it. None also for some
/// numbers near 2^128.
fn number_at(bytes: &[u8], at: usize) -> Option<(u128, usize)>
    ensures { IfSome result (λ p. Stands bytes.now at p.1 (decimal p.0)) }
{
    let first = digit_at(bytes, at)?;
    if first == 0 {
        return Some((0, at + 1));
    }
    more_digits(bytes, at, first)
}

/// The same where the first digit is this.
fn more_digits(bytes: &[u8], at: usize, first: u8) -> Option<(u128, usize)>
    requires some { 1 ≤ first }
    requires digit { first < 10 }
    requires here { Stands bytes.now at (at + 1) ((48 + first) ∷ []) }
    requires within { at < length bytes.now }
    ensures { IfSome result (λ p. Stands bytes.now at p.1 (decimal p.0)) }
{
    let (short, behind) = short_digits(bytes, at, first);
    let mut number = short as u128;
    let mut to = behind;
    while let Some(digit) = digit_at(bytes, to) {
        if number > MOST {
            return None;
        }
        number = 10 * number + digit as u128;
        to += 1;
    }
    Some((number, to))
}

/// The number of as many digits as surely fit 64 bits, and the place behind them. It stands apart,
/// so that the loop keeps all that it needs in registers.
#[inline(never)]
fn short_digits(bytes: &[u8], at: usize, first: u8) -> (u64, usize)
    requires some { 1 ≤ first }
    requires digit { first < 10 }
    requires here { Stands bytes.now at (at + 1) ((48 + first) ∷ []) }
    requires within { at < length bytes.now }
    ensures some { 1 ≤ result.0 }
    ensures text { Stands bytes.now at result.1 (decimal result.0) }
    ensures within { result.1 ≤ length bytes.now }
{
    let end = bytes.len().min(at + SHORT);
    let mut number = first as u64;
    let mut to = at + 1;
    while to < end {
        let Some(digit) = digit_at(bytes, to) else {
            return (number, to);
        };
        number = 10 * number + digit as u64;
        to += 1;
    }
    (number, to)
}

impl ReadAt for u64 {
    ghost use Rattle.std.specs.Prelude.{◌<◌, ◌^◌, decimal};

    ghost text = { decimal };

    ghost in_range = { λ n. n < 2 ^ 64 };

    fn read_at(_alloc: Global, bytes: &[u8], at: usize) -> Result<(u64, usize), NotPrinted> {
        match number_at(bytes, at) {
            Some((number, to)) if number <= u64::MAX as u128 => Ok((number as u64, to)),
            _ => Err(NotPrinted::Other),
        }
    }
}

/// In quotes.
impl ReadAt for u128 {
    ghost use Rattle.std.specs.Prelude.{◌<◌, ◌^◌};
    ghost use Rattle.cert_reader.specs.Text.{quoted_number};

    ghost text = { quoted_number };

    ghost in_range = { λ n. n < 2 ^ 128 };

    fn read_at(_alloc: Global, bytes: &[u8], at: usize) -> Result<(u128, usize), NotPrinted> {
        quoted_at(bytes, at).ok_or(NotPrinted::Other)
    }
}

/// The number in quotes at a place, and the place behind it.
fn quoted_at(bytes: &[u8], at: usize) -> Option<(u128, usize)>
    ensures { IfSome result (λ p. Stands bytes.now at p.1 (quoted_number p.0)) }
{
    let from = behind_byte(bytes, at, b'"')?;
    let (number, to) = number_at(bytes, from)?;
    let behind = behind_byte(bytes, to, b'"')?;
    Some((number, behind))
}
