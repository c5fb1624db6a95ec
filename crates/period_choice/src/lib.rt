//! The best period of a range: the one whose least budget has the least share of the processor.
#![tactic(auto)]

mod choice;
mod choosing;
mod shortness;

pub use choice::Choice;
pub use choosing::choose;
