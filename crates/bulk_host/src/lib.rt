//! The host that is generated for a number of guests, and the jobs of its guests.
#![tactic(auto)]

mod host;
mod jobs;

pub use host::make_bulk;
pub use jobs::bulk_jobs;
