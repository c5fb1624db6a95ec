//! Scripts of edits: the edits that a file of comma-separated records spells, or its first fault.
#![tactic(auto)]

mod cutting;
mod fault;
mod guests;
mod numbers;
mod row_fields;
mod script_reading;
mod script_rows;
mod spelling;
mod task_spelling;

pub use fault::ScriptFault;
pub use guests::{GuestFault, read_guests};
pub use script_reading::{read_edits, read_header, read_script};
pub use spelling::spell_edit;
