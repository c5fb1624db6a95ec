//! The texts of the reports: each is a function of what it reports, in `specs/`.
#![tactic(auto)]

mod admit;
mod audit;
mod bulk;
mod cert_fault;
mod check;
mod choose;
mod fault;
mod interface;
mod isolations;
mod missed;
mod names;
mod place;
mod refusal;
mod responses;
mod row_fault;
mod session;
mod simulate;
mod slack;
mod steal;
mod system_fault;
mod tally;
mod unread;
mod vcpu_lines;
mod version;

pub use admit::admit_text;
pub use audit::audit_text;
pub use bulk::bulk_text;
pub use check::check_text;
pub use choose::{best_text, nothing_text};
pub use fault::{FileFault, fault_text, not_rtds_text};
pub use interface::interface_text;
pub use isolations::isolation_text;
pub use place::unplaced_text;
pub use refusal::refusal_text;
pub use responses::{Response, responses_text};
pub use session::{push_answer, session_begun, session_text};
pub use simulate::{counts_text, simulate_text};
pub use slack::slack_text;
pub use steal::steal_text;
pub use tally::tally_text;
pub use unread::{absent_text, too_long_text};
pub use version::version_text;
