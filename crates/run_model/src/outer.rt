//! What lies outside the program, and can fail.

/// What lies outside the program, and can fail.
#[derive(Clone, Copy, Debug, PartialEq, Eq)]
pub enum Outer {
    /// The disk.
    Disk,
    /// The source of the key.
    Key,
    /// The source of the script, or of a stream of requests.
    Script,
    /// The sink.
    Sink,
}
