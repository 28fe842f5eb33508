//! Bytes that come and bytes that go: what a source gives, what a sink takes, and both in memory.
//!
//! A contract sees a source as the bytes that it has left, and a sink as the bytes that it holds, where they tell
//! them (`specs/Stream.antt` first).
#![tactic(auto)]

mod mem_file;
mod mem_sink;
mod mem_source;
mod putting;
mod reading;
mod stream;

pub use mem_file::MemFile;
pub use mem_sink::MemSink;
pub use mem_source::MemSource;
pub use putting::put_all;
pub use reading::{ReadFault, read_named};
pub use stream::{NamedSource, Sink, Source};
