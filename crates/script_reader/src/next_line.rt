//! What is told of a script's next line.

/// What was found next in a script.
#[derive(Clone, Copy, Debug, PartialEq, Eq)]
pub enum NextLine {
    /// A line, which ends at a newline or at the script's end.
    Line,
    /// The script's end.
    End,
    /// A line of more than `MOST_LINE` bytes.
    LongLine,
    /// A script of more than `MOST_SCRIPT` bytes, where no newline within these ends the line.
    LongScript,
}
