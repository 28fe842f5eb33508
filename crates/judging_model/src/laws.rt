//! What the words of the contracts say, as the contract of a function that does nothing.
ghost use Rattle.judging_model.specs.FaultLaws.{OpensLaw};

use image_format::images_that_can_be_read_are_told;

/// An image has no fault exactly where it can be opened and consent is not lacking, in journal, bitmap and direct mode
/// alike.
pub fn images_that_open_have_no_fault()
    ensures { OpensLaw }
{
    images_that_can_be_read_are_told();
}
