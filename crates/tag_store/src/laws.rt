//! What the words of a store's contracts say, for the layers of every mode: each law is the contract of a function that
//! does nothing.

ghost use Rattle.tag_store.specs.StoreLaws.{DirectLaw, ElsewhereLaw, FreshLaw, KeepsOthersLaw, MarkedLaw, OtherRegionsLaw, OthersLaw, PutBytesLaw, PutLaw, PutTagsLaw, PutWholeLaw, ReadsTagsLaw, RestLaw, SameTagsLaw, SyncedLaw};

/// A tag that is put changes the tag of its block, and no other byte.
pub fn tag_is_put()
    ensures tags { PutTagsLaw }
    ensures bytes { PutBytesLaw }
    ensures whole { PutWholeLaw }
    ensures others { OthersLaw }
{}

/// What may be written to a sector of tags has in each place a tag that the store gives or that is put, and all other
/// bytes as they are given.
pub fn tags_are_written()
    ensures marked { MarkedLaw }
    ensures put { PutLaw }
    ensures rest { RestLaw }
{}

/// What reads of the disk give of the tags after a write-back, and at any time of the sectors without one.
pub fn reads_give_what_is_given()
    ensures tags { ReadsTagsLaw }
    ensures direct { DirectLaw }
    ensures others { KeepsOthersLaw }
{}

/// A store over a fresh cache is of its disk, and stays so where another call leaves the sectors of tags, and under other
/// regions.
pub fn store_is_of_its_disk()
    ensures fresh { FreshLaw }
    ensures elsewhere { ElsewhereLaw }
    ensures synced { SyncedLaw }
    ensures tags { SameTagsLaw }
    ensures regions { OtherRegionsLaw }
{}
