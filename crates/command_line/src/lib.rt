//! The commands: the words that spell one, and what each answers over a store.
#![tactic(auto)]

mod commands;
mod numbers;
mod period_words;
mod slot_words;
mod version;

pub use commands::{Command, answer, parse};
