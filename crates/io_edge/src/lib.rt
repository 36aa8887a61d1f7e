//! Where bytes come in and go out: the traits `Source` and `Sink`, their implementations over memory and over std's
//! readers and writers, and the calls that read or write a whole text.
#![tactic(auto)]

pub mod edge;
pub mod memory_sink;
pub mod memory_source;
pub mod null_sink;
mod pieces;
pub mod standard;
pub mod steady_source;
pub mod whole;

pub use edge::{Failed, Sink, Source};
pub use memory_sink::MemorySink;
pub use memory_source::MemorySource;
pub use null_sink::NullSink;
pub use standard::{StdSink, StdSource};
pub use steady_source::SteadySource;
pub use whole::{ReadError, WriteFault, read_all, write_all};
