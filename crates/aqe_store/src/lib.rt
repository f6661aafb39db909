//! The outside of the engine: the store that files are read from, and the sink that text is written to.
#![tactic(auto)]

mod calls;
mod count;
mod file_store;
mod memory_sink;
mod memory_store;
mod name;
mod read;
mod shelf;
mod sink;
mod std_sink;
mod steady_store;
mod store;

pub use calls::{Calls, StoreCall, StoreKind, WriteNumbers};
pub use file_store::FileStore;
pub use memory_sink::MemorySink;
pub use memory_store::MemoryStore;
pub use name::{Files, Name, Names};
pub use read::{ReadBuffer, ReadFail, read_all, read_with};
pub use sink::{Sink, SinkFail, write_all};
pub use std_sink::StdSink;
pub use steady_store::SteadyStore;
pub use store::{Store, StoreFail};
