//! A generated host, its budgets and its one first run, and what is counted of them.
#![tactic(auto)]

mod counts;

pub use counts::{BulkCounts, bulk_counts};
