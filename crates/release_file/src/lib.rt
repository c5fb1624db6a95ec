//! The files of releases and of workloads.
#![tactic(auto)]

mod fault;
mod leaf_rows;
mod release_reading;
mod release_rows;
mod release_spelling;
mod wake_rows;
mod wake_spelling;
mod workload;
mod workload_reading;

pub use fault::ReleaseFault;
pub use release_reading::read_releases;
pub use workload::{Wake, WakeKind};
pub use workload_reading::read_workload;
