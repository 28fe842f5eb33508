//! What the words of the contracts say of two runs, as the contract of a function that does nothing.
ghost use Rattle.command_run.specs.Reopening.{ReopeningLaw};

use image_judging::images_that_open_have_no_fault;

/// In journal mode an image that a cut has left begins the next run with what is kept: the first writes of the run that
/// was cut, with every flushed one among them. The writes of the next run come behind those.
pub fn reopened_images_begin_with_what_a_cut_left()
    ensures { ReopeningLaw }
{
    images_that_open_have_no_fault();
}
