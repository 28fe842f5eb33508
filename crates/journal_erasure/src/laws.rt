//! Which erasure is one of a disk's journal.
ghost use Rattle.journal_erasure.specs.ErasureLaws.{RestErasureLaw, ScannedErasureLaw};

/// The erasure of a journal at rest, and one that a scan has told, are those of the disk's journal. It does
/// nothing.
pub fn erasure_is_told()
    ensures rest { RestErasureLaw }
    ensures scanned { ScannedErasureLaw }
{}
