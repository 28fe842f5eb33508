//! What the words of the contracts say, as the contract of a function that does nothing.

ghost use Rattle.image_format.specs.FormatLaws.{ReadLaw};

/// An image tells a format exactly where it can be read.
pub fn images_that_can_be_read_are_told()
    ensures { ReadLaw }
{}
