//! The releases that ask for the most: every task releases at one moment, and then as its jobs
//! arrive. And the jobs at each multiple of the periods.
#![tactic(auto)]

mod jobs;
mod multiples;

pub use jobs::{jobs_in_reach, synchronous_jobs};
pub use multiples::jobs_at_multiples;
