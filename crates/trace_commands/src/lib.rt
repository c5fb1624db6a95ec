//! Runs and their traces: `audit`, `tally`, `steal`, `simulate`, `rtds` and `isolate`.
#![tactic(auto)]

mod audit;
mod isolate;
mod rtds;
mod simulate;
mod slots;
mod walk;

pub use audit::TraceCommand;
pub use isolate::Isolate;
pub use rtds::Rtds;
pub use simulate::Simulate;
pub use slots::Slots;
