//! What the words of the contracts say of stored tags, as the contract of a function that does nothing.
ghost use Rattle.command_run.specs.StoredTags.{StoredTagsLaw};

/// In journal and in direct mode the tag that is stored for a block stays byte for byte, at each moment of a run, where
/// neither the run writes the block nor the block awaits its tag.
pub fn stored_tags_of_other_blocks_stay()
    ensures { StoredTagsLaw }
{}
