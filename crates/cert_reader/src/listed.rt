ghost use Rattle.std.specs.Prelude.{◌<◌, ℕ, List, length, slice_index_or, IfOk};
ghost use Rattle.cert_reader.specs.Text.{listed};
ghost use Rattle.cert_reader.specs.inner.Text.{Stands};

use crate::not_printed::NotPrinted;
use crate::numerals::behind_byte;
use crate::read_at::ReadAt;
use std::alloc::Global;

/// The values that stand at a place with commas between them, and the place behind them.
pub fn list_at<T: ReadAt + Drop>(
    alloc: Global,
    bytes: &[u8],
    at: usize,
) -> Result<(Vec<T>, usize), NotPrinted>
    ensures text { IfOk result (λ p. Stands bytes.now at p.1 (listed T.text p.0.items)) }
    ensures in_range { IfOk result (λ p. (k : ℕ) (d : T) → k < length p.0.items
        → T.in_range (slice_index_or p.0.items k d)) }
{
    let mut values = Vec::new(alloc);
    if behind_byte(bytes, at, b']').is_some() {
        return Ok((values, at));
    }
    let mut from = at;
    loop {
        let (value, to) = T::read_at(alloc, bytes, from)?;
        values.push(value)?;
        match behind_byte(bytes, to, b',') {
            Some(next) => from = next,
            None => return Ok((values, to)),
        }
    }
}
