//! What a new image is for those who open it: each law is the contract of a function that does nothing.

ghost use Rattle.formatting_model.specs.FormattedLaws.{NewAwaitsLaw, NewBitmapLaw, NewCellsLaw, NewKeptLaw, NewOpensLaw};

/// A new image for journal mode can be opened, in direct mode too, with nothing to replay, and one for
/// bitmap mode in that, with no bit set, or that of each region where tags are to be recalculated. Where it was wiped,
/// each block has zeros with their tag, and else what stood in its place; and where tags are to be recalculated, each
/// awaits its tag, and has the bytes that stood there with their tag.
pub fn new_image_opens()
    ensures opens { NewOpensLaw }
    ensures bitmap { NewBitmapLaw }
    ensures cells { NewCellsLaw }
    ensures kept { NewKeptLaw }
    ensures awaits { NewAwaitsLaw }
{}
