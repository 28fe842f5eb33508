//! What holds of every line: each law is the contract of a function that does nothing.
ghost use Rattle.script_text.specs.Laws.{AskOnceLaw, AskTotalLaw, QuietLineLaw, ReadAllLaw, TotalLaw};

/// Bytes are a line or have a fault, and so are the bytes of each of some lines.
///
/// That they are only one of these is the contract of `lines_are_read_once` in `device_model`.
pub fn bytes_have_a_reading()
    ensures total { TotalLaw }
    ensures lines { ReadAllLaw }
{}

/// Bytes of a line of requests alone, none of them under `start`, are read in one way: as a request, as a line that is
/// skipped, or with their first fault.
pub fn requests_are_read_once()
    ensures total { AskTotalLaw }
    ensures once { AskOnceLaw }
{}

/// A line that prints nothing does nothing to the history.
pub fn quiet_lines_do_nothing()
    ensures { QuietLineLaw }
{}
