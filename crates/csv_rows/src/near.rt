ghost use Rattle.std.specs.Prelude.{◌≡◌, ◌≢◌, ℕ, ◌+◌, ◌<◌, ◌≤◌, [], Some, length, drop, IfSome, OnOk};
ghost use Rattle.std.specs.Int.{bit_at};
ghost use Rattle.csv.specs.Machine.{next_record};
ghost use Rattle.csv.specs.Reading.{default_config};
ghost use Rattle.csv.specs.declared.parser.State.TheVariants as st;
ghost use Rattle.csv_rows.specs.PlainText.{IsPlainText};
ghost use Rattle.csv_rows.specs.Row.{texts_of};
ghost use Rattle.csv_rows.specs.inner.Near.{AreMarked, IsFirstMark, IsNearLine, IsWithout, Marks};

use std::alloc::AllocError;
use std::simd::prelude::*;

/// A line of four fields, and what is left behind it.
#[derive(Clone, Copy)]
pub struct FourFields<'b> {
    pub fields: [&'b [u8]; 4],
    pub rest: &'b [u8],
}

/// Three places, from the first one on.
#[derive(Clone, Copy)]
struct ThreePlaces {
    first: usize,
    second: usize,
    third: usize,
}

/// How many bytes are looked at at once.
const LANES: usize = 32;

/// The first place that is marked, and the marks of all others.
#[derive(Clone, Copy)]
struct FirstMark {
    place: usize,
    others: u64,
}

/// Which of the first bytes of a text are this one, the first byte lowest.
#[inline(always)]
fn places_of(text: &[u8], byte: u8) -> u64
    requires { 32 ≤ length text.now }
    ensures { Marks text.now byte result }
{
    u8x32::from_slice(text)
        .simd_eq(u8x32::splat(byte))
        .to_bitmask()
}

/// The first place that is marked.
#[inline(always)]
fn lowest(marks: u64) -> usize
    requires { marks ≢ 0 }
    ensures { IsFirstMark marks result }
{
    marks.trailing_zeros() as usize
}

/// Splits the first mark off.
#[inline(always)]
fn first_mark(marks: u64) -> FirstMark
    requires { marks ≢ 0 }
    ensures first { IsFirstMark marks result.place }
    ensures others { IsWithout marks result.place result.others }
{
    FirstMark {
        place: lowest(marks),
        others: marks & (marks - 1),
    }
}

/// The marks of the places before this one.
#[inline(always)]
fn before(marks: u64, place: usize) -> u64
    requires { place < 64 }
    ensures kept { (k : ℕ) → k < place → bit_at result k ≡ bit_at marks k }
    ensures no_more { (k : ℕ) → bit_at result k ≡ 1 → (k < place) × (bit_at marks k ≡ 1) }
{
    marks & ((1 << place) - 1)
}

/// Where the first line ends, if that is among the first bytes and the line is not empty.
#[inline(always)]
pub fn near_line(text: &[u8]) -> Option<usize>
    ensures { IfSome result (IsNearLine text.now) }
{
    if text.len() < LANES {
        return None;
    }
    let lines = places_of(text, b'\n');
    if lines == 0 {
        return None;
    }
    let end = lowest(lines);
    if end == 0 {
        return None;
    }
    Some(end)
}

/// The places that are marked, where these are three.
#[inline(always)]
fn three_places(marks: u64) -> Option<ThreePlaces>
    ensures { IfSome result (AreMarked marks) }
{
    if marks == 0 {
        return None;
    }
    let first = first_mark(marks);
    if first.others == 0 {
        return None;
    }
    let second = first_mark(first.others);
    if second.others == 0 {
        return None;
    }
    let third = first_mark(second.others);
    if third.others != 0 {
        return None;
    }
    Some(ThreePlaces {
        first: first.place,
        second: second.place,
        third: third.place,
    })
}

/// The first line of a text, where it ends among the first bytes and has four fields.
#[inline(always)]
pub fn near_four(text: &[u8]) -> Option<FourFields<'_>>
    ensures first { IsPlainText text.now → IfSome result (λ line.
        next_record default_config st.StartRecord [] [] text.now
        ≡ Some (texts_of line.fields, st.StartRecord, line.rest.now)) }
    ensures plain { IsPlainText text.now → IfSome result (λ line. IsPlainText line.rest.now) }
{
    let end = near_line(text)?;
    let in_line = before(places_of(text, b','), end);
    let commas = three_places(in_line)?;
    Some(FourFields {
        fields: [
            &text[..commas.first],
            &text[commas.first + 1..commas.second],
            &text[commas.second + 1..commas.third],
            &text[commas.third + 1..end],
        ],
        rest: &text[end + 1..],
    })
}

/// Splits such a line into its fields.
#[inline(always)]
pub fn split_line<'b>(
    text: &'b [u8],
    end: usize,
    fields: &mut Vec<&'b [u8]>,
) -> Result<(), AllocError>
    requires { IsNearLine text.now end }
    ensures { IsPlainText text.now → OnOk result
        (next_record default_config st.StartRecord [] [] text.now
        ≡ Some (texts_of fields.new.items, st.StartRecord, drop (end + 1) text.now)) }
{
    fields.clear();
    let mut from = 0;
    let mut commas = before(places_of(text, b','), end);
    while commas != 0 {
        let comma = first_mark(commas);
        fields.push(&text[from..comma.place])?;
        from = comma.place + 1;
        commas = comma.others;
    }
    fields.push(&text[from..end])?;
    Ok(())
}
