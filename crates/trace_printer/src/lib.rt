//! The text of recorded traces, which reads back as their events.
#![tactic(auto)]

mod endings;
mod event_fields;
mod printing;
mod row_tail;

pub use printing::{TracePrinter, print_trace};
