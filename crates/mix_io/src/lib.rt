//! Sources and sinks of bytes that count their faults, and a whole read and a whole write over them.
#![tactic(auto)]

mod ends;
mod memory;
mod over_std;
mod whole;

pub use ends::{Failed, Sink, Source};
pub use memory::{MemorySink, MemorySource};
pub use over_std::{StdSink, StdSource};
pub use whole::{ReadRefused, WriteFault, read_all, write_all};
