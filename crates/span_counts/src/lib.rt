//! What is counted of a run of spans: the slots that it is given, its jobs, and those that miss. It
//! takes time for each span and each job, and none for a slot.
#![tactic(auto)]

mod counts;
mod pending;
mod services;

pub use counts::{Counts, count_level, counts_by, first_miss, misses, slots_given};
pub use pending::count_pending;
pub use services::{Services, first_miss_by};
