//! What is judged of an image.

/// Which data and tag of each block are judged.
#[derive(Clone, Copy, Debug, PartialEq, Eq)]
pub enum What {
    /// What a read of the block gives: its newest entry in the journal, if it has one, and else what is placed.
    Cells,
    /// What stands where the layout puts the block, whatever journal, bitmap and flags say.
    Placed,
}
