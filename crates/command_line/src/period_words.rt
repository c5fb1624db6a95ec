ghost use Rattle.std.specs.Prelude.{◌≡◌, option_map};
ghost use Rattle.command_line.specs.PeriodWords.{period_of, range_between, range_of};

use crate::numbers::number_from_one;
use guest_commands::{Period, Periods};
use slot_model::LIMIT;

/// The most periods of a range, past the first.
const MOST_MORE: u64 = 9_999;

/// The period that a word spells: a plain decimal number of slots from 1 to 1,000,000,000.
pub fn period_of(word: &str) -> Option<Period>
    ensures { option_map (λ p. p.slots) result ≡ period_of word.now }
{
    Some(Period {
        slots: number_from_one(word, LIMIT)?,
    })
}

/// The range of the periods that two words spell: the second is no shorter, and at most 9,999 slots
/// longer.
pub fn range_of(low: &str, high: &str) -> Option<Periods>
    ensures { option_map (λ r. (r.low, r.high)) result ≡ range_of low.now high.now }
{
    let low = period_of(low)?;
    let high = period_of(high)?;
    range_between(low, high)
}

fn range_between(low: Period, high: Period) -> Option<Periods>
    ensures { option_map (λ r. (r.low, r.high)) result
        ≡ range_between low.slots high.slots }
{
    if low.slots <= high.slots && high.slots - low.slots <= MOST_MORE {
        Some(Periods {
            low: low.slots,
            high: high.slots,
        })
    } else {
        None
    }
}
