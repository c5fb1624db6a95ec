//! The VCPUs of a core under RTDS, and the order in which those that are eligible go, and that in
//! which the periods of all end.
#![tactic(auto)]

mod account;
mod by_end;
mod queue;
mod vcpus;

pub use account::{Account, PAST_ALL};
pub use vcpus::Vcpus;
