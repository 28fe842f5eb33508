//! What ends a line.
use crate::MeaningFault;

/// What ended a line before its text was whole.
#[derive(Clone, Copy, Debug, PartialEq, Eq)]
pub enum LineEnd {
    /// The line is refused: nothing was done.
    Refused(MeaningFault),
    /// The disk failed, and the device is broken. Nothing of the line's text is told.
    Disk,
    /// The sink failed: all of the line is done, and a part of its text is told.
    Sink,
    /// There was no memory. Nothing of the line's text is told, and some of what it does is done, or all.
    Memory,
}
