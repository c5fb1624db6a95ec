//! What one VCPU of a trace did up to a moment: its period that has begun, the tally of those that
//! have ended, and the first of them that is broken.
#![tactic(auto)]

mod tally;
mod watch;

pub use tally::Tally;
pub use watch::{Breach, Broken, Limits, State, Watch};
