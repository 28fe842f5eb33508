//! What the lines of a mirror's script are: a law is the contract of a function that does nothing.
ghost use Rattle.mirror_session.specs.Lines.{LineLaw, LinesLaw, OneLineLaw};

/// The lines of a mirror's script are read once: what `read_ask_line` of `script_text` reads of the bytes of each is
/// what it means to the mirror, any bytes are read, and none in two ways.
pub fn lines_of_a_mirror_are_read_once()
    ensures line { LineLaw }
    ensures lines { LinesLaw }
    ensures once { OneLineLaw }
{}
