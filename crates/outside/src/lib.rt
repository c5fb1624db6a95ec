//! The edge of the program: where files are read and where output is written.
//! A `Store` and a `Sink` count their own refusals, so that whoever is refused can name the cause.
//! Both stand in memory, for tests, and over the real system; `read_all`, `read_pieces` and
//! `write_all` use either.
#![tactic(auto)]

mod disk_store;
mod memory_sink;
mod memory_store;
mod read;
mod sink;
mod stdout_sink;
mod store;
mod taker;
mod write;

pub use disk_store::DiskStore;
pub use memory_sink::MemorySink;
pub use memory_store::MemoryStore;
pub use read::{ReadFault, read_all, read_pieces};
pub use sink::{Sink, SinkFault};
pub use stdout_sink::StdoutSink;
pub use store::{Store, StoreFault};
pub use taker::ByteTaker;
pub use write::{WriteFault, write_all};
