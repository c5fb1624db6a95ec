//! The explicit deadline resource, which gives its budget within a deadline in every period, as a
//! supply, and the least whole budget with which a level of tasks passes over it.
#![tactic(auto)]

mod budgets;
mod explicit;
mod least;
mod resource;

pub use explicit::ExplicitDeadline;
pub use least::least_explicit;
