//! Why a line of a script is refused.

use crate::FormFault;
use script_text::MeaningFault;

/// Why a line of a script is refused.
#[derive(Debug, Drop)]
pub enum LineRefusal {
    /// Its bytes are no line.
    Form(FormFault),
    /// It is a line that is not to be run on the device as that is.
    Meaning(MeaningFault),
}
