ghost use Rattle.std.specs.Prelude.{◌≡◌, option_map};
ghost use Rattle.command_line.specs.SlotWords.{pattern_of, slot_count};

use crate::numbers::number_from_one;
use server_sched::Pattern;
use slot_model::MOST_SLOTS;
use trace_commands::Slots;

/// The pattern that a word names.
pub fn pattern_of(word: &str) -> Option<Pattern>
    ensures { result ≡ pattern_of word.now }
{
    if word == "early" {
        Some(Pattern::Early)
    } else if word == "late" {
        Some(Pattern::Late)
    } else if word == "worst" {
        Some(Pattern::Worst)
    } else {
        None
    }
}

/// The number of slots that a word spells: a plain decimal number from 1 to 1,000,000.
pub fn slot_count(word: &str) -> Option<Slots>
    ensures { option_map (λ s. s.count) result ≡ slot_count word.now }
{
    Some(Slots {
        count: number_from_one(word, MOST_SLOTS)?,
    })
}
