//! A law: a device that was just recovered stands for its base.
ghost use Rattle.journal_mode.specs.Opening.{RecoveredStandsLaw};

/// After a recovery the device stands for the cells at its start, with a journal of which no section is opened. It
/// does nothing.
pub fn recovered_journal_stands()
    ensures { RecoveredStandsLaw }
{}
