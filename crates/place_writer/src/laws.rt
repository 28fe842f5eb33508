//! Laws: what is placed of a ring stays so while entries are put and committed, and what is settled is in place. A
//! commit keeps the tags in memory.
ghost use Rattle.place_writer.specs.CommitLaws.{CommittedCellsLaw, PlacedCommitLaw};
ghost use Rattle.place_writer.specs.PlacingLaws.{BeginsLaw, CommitLaw, DiskRingLaw, PutLaw, SettledCellsLaw};

/// Of an empty ring nothing is placed, and what is placed stays so behind a put and a commit. The ring of a disk has
/// whole entries. It does nothing.
pub fn placement_goes_on()
    ensures begins { BeginsLaw }
    ensures put { PutLaw }
    ensures commit { CommitLaw }
    ensures disk { DiskRingLaw }
{}

/// Once all that is placed is settled each image has it in its place. It does nothing.
pub fn settled_is_in_place()
    ensures { SettledCellsLaw }
{}

/// Behind a commit the disk has its cells with the tags in memory, and as much of the ring is placed. It does
/// nothing.
pub fn commit_keeps_what_is_placed()
    ensures cells { CommittedCellsLaw }
    ensures placed { PlacedCommitLaw }
{}
