//! The program as a call: from words and files to a status and a text that is written.
#![tactic(auto)]

mod top;

pub use command_frame::Status;
pub use top::run;
