ghost use Rattle.std.specs.Prelude.{◌≡◌, ◌≤◌, length, map};
ghost use Rattle.std.specs.Simd.Lanes.{mask_l};
ghost use Rattle.csv_rows.specs.inner.Stops.{is_stop, PassesNoStop};

use std::simd::prelude::*;

/// How many bytes are looked at at once.
const LANES: usize = 16;

/// Which of these bytes are stops, the first one lowest.
#[inline(always)]
fn stops_of(bytes: u8x16) -> u64
    ensures { result ≡ mask_l (map is_stop bytes) }
{
    bytes.simd_le(u8x16::splat(b',')).to_bitmask()
}

/// The first stop from a place on, or the end of the text, byte by byte.
fn next_stop_by_one(text: &[u8], from: usize) -> usize
    requires { from ≤ length text.now }
    ensures { PassesNoStop text.now from result }
{
    for at in from..text.len() {
        if text[at] <= b',' {
            return at;
        }
    }
    text.len()
}

/// The first stop from a place on, or the end of the text.
#[inline(always)]
pub fn next_stop(text: &[u8], from: usize) -> usize
    requires { from ≤ length text.now }
    ensures { PassesNoStop text.now from result }
{
    let mut at = from;
    while text.len() - at >= LANES {
        let stops = stops_of(u8x16::from_slice(&text[at..]));
        if stops != 0 {
            return at + stops.trailing_zeros() as usize;
        }
        at += LANES;
    }
    next_stop_by_one(text, at)
}
