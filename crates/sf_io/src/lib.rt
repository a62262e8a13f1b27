//! Where bytes come from and where they go: sources and sinks, in memory and over std's readers and
//! writers, and the two calls that read a source to its end and write a text whole.
#![tactic(auto)]

mod calls;
mod errors;
mod memory_sink;
mod memory_source;
mod sink;
mod source;
mod standard;

pub use errors::{OutOfMemory, ReadError, WriteFault};
pub use memory_sink::MemSink;
pub use memory_source::MemSource;
pub use sink::{Push, Sink, write_all};
pub use source::{Pull, Source, read_all};
pub use standard::{StdSink, StdSource};
