//! Certificates of admission: making the one that proves a system, and printing it.
#![tactic(auto)]

mod levels;
mod making;
mod text;

pub use making::certify;
pub use text::print_certificate;
