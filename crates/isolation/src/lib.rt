//! What a VCPU keeps under RTDS whatever the others of its core do: the least number of slots at
//! the end of its periods that is enough for all of them, and what that means for each run.
#![tactic(auto)]

mod budgets;
mod isolation;
mod neighbours;
mod ties;
mod vcpus;
mod window;

pub use budgets::{CoreBudgets, core_budgets};
pub use isolation::Isolation;
pub use vcpus::{PartIsolation, are_isolated, isolations};
