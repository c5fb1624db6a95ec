//! The RTDS scheduler: deferrable servers with extra time under earliest deadline first, each core
//! by itself, and the trace that a workload gives.
#![tactic(auto)]

mod fault;
mod host;
mod host_core;
mod moment;
mod rows;
mod running;
mod simulate;
mod switches;

pub use fault::RtdsFault;
pub use simulate::{other_core, print_rtds, run_rtds};
