//! Sources and sinks over any file whose calls may do a part of what they are asked, or be interrupted.
//!
//! `FileSource` and `OpenSource` are proved to be sources over every such file, and `LineSink` and `PieceSink` to be
//! sinks, and they tell their bytes where the file does. What a program trusts of its system is one `impl` of
//! `InputFile`, `InputFolder` and `OutputFile` each, those of `std_stream.rt`. `specs/Streams.antt` is the file to read
//! first.
#![tactic(auto)]

mod file_source;
mod line_sink;
mod open_source;
mod piece_sink;
mod std_stream;
mod stream_file;
mod transfer;

pub use file_source::FileSource;
pub use line_sink::LineSink;
pub use open_source::OpenSource;
pub use piece_sink::PieceSink;
pub use std_stream::{StdInput, StdInputs, StdOutput};
pub use stream_file::{InputFile, InputFolder, OutputFile};
