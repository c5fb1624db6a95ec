//! The system file: a TOML document of cores, parts and tasks. `read_system` answers the system
//! that a file spells, or the first fault of its document; `print_system` writes a file that spells
//! a system.
#![tactic(auto)]

mod at_front;
mod cores;
mod fault;
mod format;
mod keys;
mod names;
mod parts;
mod plain;
mod print;
mod read;
mod tasks;
mod told;
mod whole;

pub use fault::{Spot, SystemFault};
pub use print::print_system;
pub use read::read_system;
