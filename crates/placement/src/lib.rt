//! Guests put on cores, each on the first on which the whole system is admitted.
#![tactic(auto)]

mod fault;
mod first_fit;

pub use fault::PlaceFault;
pub use first_fit::place;
