//! What is wrong with a run.
use std::alloc::AllocError;

/// What does not hold of a run, or of what it left.
#[derive(Debug, Drop, thiserror::Error)]
pub enum Wrong {
    /// Of its status, its text, or what is left outside of the blocks.
    #[error("{0}")]
    Run(&'static str),
    /// Of a block that is left.
    #[error("block {block}: {what}")]
    Block { block: u64, what: &'static str },
    /// Of the blocks together: they are to be those after some prefix of so many writes, with so many flushed ones.
    #[error("the blocks are those after no prefix of {begun} writes that has the first {flushed}")]
    Prefix { flushed: usize, begun: usize },
    /// There was no memory to look at it.
    #[error("out of memory")]
    Memory,
}

impl From<AllocError> for Wrong {
    fn from(_: AllocError) -> Wrong {
        Wrong::Memory
    }
}
