//! The greatest response of a task under a fixed priority, over any supply: how many slots after
//! its release a job of it has its work at the latest. The worst case is replayed.
#![tactic(auto)]

mod greatest;
mod jobs;
mod replays;

pub use greatest::{response, response_in};
pub use jobs::response_jobs;
pub use replays::replay;
