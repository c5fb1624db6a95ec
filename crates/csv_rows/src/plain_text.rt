ghost use Rattle.std.specs.Prelude.{◌≡◌, ◌≤◌, ◌==◌, [], false, IsTrue, IfOk, IfSome, length, map, option_map, take};
ghost use Rattle.std.specs.Simd.Lanes.{mask_l};
ghost use Rattle.csv.specs.Machine.{next_record};
ghost use Rattle.csv.specs.Reading.{default_config, strip_bom};
ghost use Rattle.csv.specs.declared.parser.State.TheVariants as st;
ghost use Rattle.csv_rows.specs.PlainText.{IsPlainText};
ghost use Rattle.csv_rows.specs.Row.{texts_of};

use crate::near::{near_line, split_line};
use crate::stops::next_stop;
use memchr::memchr2;
use std::alloc::AllocError;
use std::simd::prelude::*;

/// The first byte of a byte order mark.
pub const MARK: u8 = 0xEF;

/// Whether a text has no quote, no carriage return and no mark at its front. Then each comma ends
/// a field, and each line feed a record.
pub fn is_plain_text(text: &[u8]) -> bool
    ensures plain { IsTrue result → IsPlainText text.now }
    ensures no_mark { IsTrue result → strip_bom text.now ≡ text.now }
{
    has_no_quote(text) && !may_have_mark(text)
}

/// How many bytes are looked at at once.
const LANES: usize = 64;

/// Which of the first bytes of a text are this one, the first byte lowest.
#[inline(always)]
fn places_of(text: &[u8], byte: u8) -> u64
    requires { 64 ≤ length text.now }
    ensures { result ≡ mask_l (map (λ b. b == byte) (take 64 text.now)) }
{
    u8x64::from_slice(text)
        .simd_eq(u8x64::splat(byte))
        .to_bitmask()
}

/// Whether the first bytes of a text have no quote and no carriage return.
#[inline(always)]
fn begins_plain(text: &[u8]) -> bool
    requires { 64 ≤ length text.now }
    ensures { IsTrue result → IsPlainText (take 64 text.now) }
{
    let quotes = places_of(text, b'"');
    let returns = places_of(text, b'\r');
    quotes == 0 && returns == 0
}

/// Whether a text has no quote and no carriage return.
pub fn has_no_quote(text: &[u8]) -> bool
    ensures { IsTrue result → IsPlainText text.now }
{
    let mut at = 0;
    while text.len() - at >= LANES {
        if !begins_plain(&text[at..]) {
            return false;
        }
        at += LANES;
    }
    is_plain_end(&text[at..])
}

/// The same of a few bytes.
fn is_plain_end(text: &[u8]) -> bool
    ensures { IsTrue result → IsPlainText text.now }
{
    memchr2(b'"', b'\r', text).is_none()
}

/// Whether a text may begin with a byte order mark.
fn may_have_mark(text: &[u8]) -> bool
    ensures { result ≡ false → strip_bom text.now ≡ text.now }
{
    !text.is_empty() && text[0] == MARK
}

/// Whether a record has a byte before place `i`: so many fields, or one that begins at `from`.
fn has_begun(fields: usize, from: usize, i: usize) -> bool
    ensures begun { IsTrue result → from ≡ i → fields ≡ 0 → ⊥ }
    ensures not_begun { result ≡ false → (from ≡ i) × (fields ≡ 0) }
{
    from != i || fields > 0
}

/// Splits the first record of a plain text into its fields, and answers what is left behind it.
/// None where there is no record: the text is empty, or has empty lines alone.
#[inline(always)]
pub fn split_record<'b>(
    text: &'b [u8],
    fields: &mut Vec<&'b [u8]>,
) -> Result<Option<&'b [u8]>, AllocError>
    ensures first { IsPlainText text.now
        → IfOk result (λ left. next_record default_config st.StartRecord [] [] text.now
        ≡ option_map (λ rest. (texts_of fields.new.items, st.StartRecord, rest.now)) left) }
    ensures plain { IsPlainText text.now
        → IfOk result (λ left. IfSome left (λ rest. IsPlainText rest.now)) }
{
    match near_line(text) {
        Some(end) => {
            split_line(text, end, fields)?;
            Ok(Some(&text[end + 1..]))
        }
        None => split_any(text, fields),
    }
}

/// The same of a record of any length.
#[inline(never)]
fn split_any<'b>(text: &'b [u8], fields: &mut Vec<&'b [u8]>) -> Result<Option<&'b [u8]>, AllocError>
    ensures first { IsPlainText text.now
        → IfOk result (λ left. next_record default_config st.StartRecord [] [] text.now
        ≡ option_map (λ rest. (texts_of fields.new.items, st.StartRecord, rest.now)) left) }
    ensures plain { IsPlainText text.now
        → IfOk result (λ left. IfSome left (λ rest. IsPlainText rest.now)) }
{
    fields.clear();
    let mut from = 0;
    let mut at = next_stop(text, 0);
    while at < text.len() {
        let byte = text[at];
        if byte == b',' {
            fields.push(&text[from..at])?;
            from = at + 1;
        } else if byte == b'\n' {
            if has_begun(fields.len(), from, at) {
                fields.push(&text[from..at])?;
                return Ok(Some(&text[at + 1..]));
            }
            from = at + 1;
        }
        at = next_stop(text, at + 1);
    }
    if !has_begun(fields.len(), from, text.len()) {
        return Ok(None);
    }
    fields.push(&text[from..])?;
    Ok(Some(&text[text.len()..]))
}
