//! What the words of the contracts say: each law is the contract of a function that does nothing.

ghost use Rattle.dump_model.specs.DumpLaws.{ShownLaw};

use image_format::images_that_can_be_read_are_told;

/// An image is shown exactly where it can be read and, without a bitmap, its journal has a plan.
pub fn images_that_are_shown_are_told()
    ensures { ShownLaw }
{
    images_that_can_be_read_are_told();
}
