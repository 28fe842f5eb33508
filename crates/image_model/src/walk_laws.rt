//! What holds of commit ids, of the scan and of a journal's faults: each law is the contract of a
//! function that does nothing.

ghost use Rattle.image_model.specs.CommitId.{CommitIdsDiffer, CommitNumberLaw};
ghost use Rattle.image_model.specs.Grid.{GridLaw};
ghost use Rattle.image_model.specs.Openable.{JournalFaultLaw};
ghost use Rattle.image_model.specs.Tables.{NewestLaw, ScanLaw};

/// Commit ids of different places or numbers differ, sections and sectors being below 2^20, and the
/// number of an id is the one whose id it is.
pub fn commit_ids_differ()
    ensures differ { CommitIdsDiffer }
    ensures number { CommitNumberLaw }
{}

/// The newest number is that of the table, and each plan and each refusal of a scan says what holds
/// of the journal.
pub fn scan_follows_the_rules()
    ensures newest { NewestLaw }
    ensures scan { ScanLaw }
{}

/// The grid of an image has a cell for each sector of each section, by the number that it bears.
pub fn grid_is_of_the_image()
    ensures { GridLaw }
{}

/// A journal has no fault exactly where it has a walk whose used entries can be replayed.
pub fn journal_faults_are_told()
    ensures { JournalFaultLaw }
{}
