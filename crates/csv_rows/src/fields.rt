ghost use Rattle.std.specs.Prelude.{◌≡◌, ◌<◌, [], length, slice_index_or, bytes_eq};
ghost use Rattle.csv_rows.specs.Row.{fields_of};

use crate::Row;

/// The field at a place of a row that has it.
pub fn field<'r>(row: &Row<'r>, i: usize) -> &'r [u8]
    requires { i < length (fields_of row.now) }
    ensures { result.now ≡ slice_index_or (fields_of row.now) i [] }
{
    match row.get(i) {
        Some(field) => field,
        None => &[],
    }
}

/// Whether two texts are the same. Names are short, and many have two to four bytes, so this is
/// quicker than `==`.
#[inline(always)]
pub fn is_same(text: &[u8], other: &[u8]) -> bool
    ensures { result ≡ bytes_eq text.now other.now }
{
    match (text, other) {
        ([a, b], [c, d]) => a == c && b == d,
        ([a, b, c], [d, e, f]) => a == d && b == e && c == f,
        ([a, b, c, d], [e, f, g, h]) => a == e && b == f && c == g && d == h,
        _ => is_same_by_one(text, other),
    }
}

/// The same, byte by byte.
#[tactic(auto, using(crate::proofs::Same::same_texts, crate::proofs::Same::other_length, crate::proofs::Same::other_byte))]
#[inline(always)]
fn is_same_by_one(text: &[u8], other: &[u8]) -> bool
    ensures { result ≡ bytes_eq text.now other.now }
{
    if text.len() != other.len() {
        return false;
    }
    for i in 0..other.len() {
        if text[i] != other[i] {
            return false;
        }
    }
    true
}

/// Whether a field is this word.
#[inline(always)]
pub fn is_word(field: &[u8], word: &str) -> bool
    ensures { result ≡ bytes_eq field.now word.now }
{
    is_same_by_one(field, word.as_bytes())
}
