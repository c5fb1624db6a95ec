//! What tasks ask for in a window, by terms: each stands for tasks whose jobs fall due, or are
//! released, together, and keeps the reciprocal of their period, so that no window needs a
//! division.
#![tactic(auto)]

mod room;
mod sums;
mod term;

pub use room::room_of;
pub use sums::{asked, asked_near, near};
pub use term::Term;

/// So many terms are kept; a level has at most as many tasks.
pub const KEPT: usize = 512;

/// Room for so few is made in no time.
pub const FEW: usize = 32;
