//! What a leaf needs and has: `responses`, `interface`, `choose` and `slack`.
#![tactic(auto)]

mod choose;
mod interface;
mod periods;
mod responding;
mod responses;
mod task_slack;

pub use choose::Choose;
pub use interface::Interface;
pub use periods::{Period, Periods};
pub use responses::Responses;
pub use task_slack::Slack;
