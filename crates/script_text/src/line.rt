//! A line of a script, and why bytes are none.

use crate::runs::Runs;
use device_model::Actor;

/// A request that a line asks for.
#[derive(Clone, Copy, Debug, PartialEq, Eq)]
pub enum Ask<'a> {
    /// To write `count` blocks from block `first` on, every byte of them `byte`.
    Fill {
        first: u64,
        count: u64,
        byte: u8,
        fua: bool,
    },
    /// To write the bytes of `runs` from block `first` on.
    Write {
        first: u64,
        runs: Runs<'a>,
        fua: bool,
    },
    /// To read `count` blocks from block `first` on.
    Read {
        first: u64,
        count: u64,
    },
    /// To flush.
    Flush,
}

/// A line of a script. What it takes from the line's bytes it borrows.
#[derive(Clone, Copy, Debug, PartialEq, Eq)]
pub enum Line<'a> {
    /// Nothing: the line has no word, or begins with `#`.
    Skip,
    /// A request. Under `start` it is submitted and no more.
    Ask { start: bool, ask: Ask<'a> },
    /// To serve the request of this ticket once.
    Serve { ticket: u64 },
    /// To take the reply of the request of this ticket.
    Take { ticket: u64 },
    /// A step of an actor.
    Step { actor: Actor },
}

/// Why bytes are no line. The first that holds is told; words are judged from left to right.
#[derive(Clone, Copy, Debug, PartialEq, Eq)]
pub enum LineFault<'a> {
    /// They are more than `MOST_LINE`.
    TooLong,
    /// One of them is neither a space nor one that may be printed.
    NotText,
    /// Another word has to stand there: one with which a line begins, a request behind `start`, an actor, or `fua`.
    WrongWord { word: &'a [u8] },
    /// The word is no decimal number below 2^64 without leading zeros.
    WrongNumber { word: &'a [u8] },
    /// The word is no byte in two hexadecimal digits of lower case.
    WrongByte { word: &'a [u8] },
    /// The word is not one run or more, as `00*512,ff*3`.
    WrongRuns { word: &'a [u8] },
    /// A word is missing.
    MissingWord,
    /// The word stands behind the line's last place.
    ExtraWord { word: &'a [u8] },
}
