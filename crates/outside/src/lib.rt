//! Where a program's bytes come from and go to: named files in a store, and a sink for what is printed.
//! Each has two forms, one in memory, which knows all that it holds, and the real one of the system.
#![tactic(auto)]

mod calls;
mod disk_store;
mod entries;
mod entry;
mod mem_sink;
mod mem_store;
mod out_sink;
mod pieces;
mod sink;
mod store;

pub use disk_store::DiskStore;
pub use mem_sink::MemSink;
pub use mem_store::MemStore;
pub use out_sink::OutSink;
pub use pieces::read_whole;
pub use sink::{Sink, SinkFailed};
pub use store::{Store, StoreErr};
