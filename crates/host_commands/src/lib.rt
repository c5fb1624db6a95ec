//! Hosts that are edited, filled and made: `session`, `place` and `bulk`.
#![tactic(auto)]

mod editing;
mod guests;
mod made_host;
mod place;
mod refusing;
mod session;

pub use guests::Guests;
pub use made_host::bulk;
pub use place::Placer;
pub use session::Editor;
