//! What holds of the grammar of scripts: a law is the contract of a function that does nothing.

ghost use Rattle.device_model.specs.GrammarLaws.{ReadingLaw};

/// The bytes of a line are read in one way: as one line, or with one fault.
pub fn lines_are_read_once()
    ensures { ReadingLaw }
{}
